// The posted clauses, the set literals, and how the first stand under the second. All memory is reserved when they are
// made.
#![tactic(auto)]

pub mod assignment;
pub mod posted;
