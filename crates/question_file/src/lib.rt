// Question files: the reader of fields, the check of every field, and the loader of the two tables.
#![tactic(auto)]

pub mod check;
mod entry;
pub mod fields;
pub mod load;
