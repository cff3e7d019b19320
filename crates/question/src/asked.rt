// The question itself.
ghost use Rattle.question.specs.Held.{AtomsThere, AtomsThere-prop, Resting, Resting-prop};

use crate::Stage;
use clauses::posted::Clauses;
use searching::Solver;
use theory::Theory;

pub mod calls;
pub mod replay;
mod searching;

// The posted clauses, and a solver for them, which holds the theory by value. All memory is reserved when the question is
// opened.
pub struct Question<T: Theory> {
    solver: Solver<T>,
    stage: Stage,
    clauses: Clauses,
    pub ghost atoms_there: { AtomsThere (T.meaning solver.theory).atoms clauses } by { AtomsThere-prop (T.meaning solver.theory).atoms clauses },
    pub ghost resting: { Resting stage solver.assignment.trail } by { Resting-prop stage solver.assignment.trail },
}
