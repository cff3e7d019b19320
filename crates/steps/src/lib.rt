// The search's step list, and what holds of every list of calls to a question that keeps to it. What there is to prove
// stands in specs/ and is proved here; the question, in a crate of its own, names it in its contracts.
#![tactic(auto)]

ghost use Rattle.steps.specs.Promises.{Promises};

use theory::Theory;

// How a literal came onto the trail: tried first, tried after its opposite failed, or without a choice.
#[derive(Clone, Copy, PartialEq, Eq, Debug)]
pub enum Mark {
    Decided,
    Flipped,
    Forced,
}

// A set literal with its mark.
#[derive(Clone, Copy, PartialEq, Eq, Debug)]
pub struct Entry {
    pub code: u16,
    pub mark: Mark,
}

// What a search says: numbers were found, none exist, or the granted decisions are spent.
#[derive(Clone, Copy, PartialEq, Eq, Debug)]
pub enum Verdict {
    Found,
    NoneExist,
    Paused,
}

// What every list of calls to a question over the theory keeps.
pub fn promised<T: Theory>(theory: &T)
    ensures { Promises (T.Theory.meaning theory.now) }
{
    let _ = theory;
}
