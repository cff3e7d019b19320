// The clauses of a question, in the order in which they were posted.
ghost use Rattle.std.specs.Prelude.{◌≡◌, ◌^◌, ◌<◌, [], length, IfOk};
ghost use Rattle.steps.specs.Calls.{are_atoms_below, atom_twice, literals_in, post_ground};
ghost use Rattle.steps.specs.Clauses.{some_dead, first_due};
ghost use Rattle.steps.specs.Steps.{codes_of};
ghost use Rattle.theory.specs.Calls.{ground_answer};
ghost use Rattle.theory.specs.Meaning.{names};
ghost use Rattle.clauses.specs.Placed.{posted_to};

use crate::assignment::Assignment;
use refusals::Refusal;
use std::alloc::{AllocError, Global};
use std::marker::Model;
use std::ops::Range;

// The most clauses that may be posted, and the most literals in all of them.
pub const MOST_CLAUSES: usize = 256;

pub const MOST_LITERALS: usize = 2048;

// All literals in one list, and where each clause stands in it: a post may not run out of memory, so room for all is
// reserved when a question is opened.
#[derive(Drop)]
pub struct Clauses {
    literals: Vec<u16>,
    places: Vec<Range<usize>>,
}

// Contracts see the clauses in the order in which they were posted.
impl Model for Clauses {
    ghost use Rattle.std.specs.Prelude.{List, vec_capacity};
    ghost use Rattle.steps.specs.Clauses.{Clause};
    ghost use Rattle.clauses.specs.Placed.{clauses_at, Placed};

    ghost Value = { List Clause };

    ghost view = { λ k. clauses_at k.literals.items k.places.items };

    ghost invariant = { λ k. Placed (vec_capacity k.literals) (vec_capacity k.places) k.literals.items k.places.items };
}

// Whether one of the literals is of the atom.
fn names_atom(clause: &[u16], atom: u16) -> bool
    ensures { result ≡ names clause.now atom }
{
    clause.iter().any(|literal| *literal / 2 == atom)
}

// Whether every literal is of one of the first so many atoms.
fn atoms_below(atoms: u16, clause: &[u16]) -> bool
    ensures { result ≡ are_atoms_below atoms clause.now }
{
    clause.iter().all(|literal| *literal / 2 < atoms)
}

// Whether two of the literals are of one atom.
fn names_twice(clause: &[u16]) -> bool
    ensures { result ≡ atom_twice clause.now }
{
    let mut rest = clause;
    while let [first, others @ ..] = rest {
        if names_atom(others, *first / 2) {
            return true;
        }
        rest = others;
    }
    false
}

impl Clauses {
    // No clause, and room for all that there may be.
    pub fn new(heap: Global) -> Result<Clauses, AllocError>
        ensures { IfOk result (λ k. k ≡ []) }
    {
        let literals = Vec::with_capacity(heap, MOST_LITERALS)?;
        let places = Vec::with_capacity(heap, MOST_CLAUSES)?;
        Ok(Clauses { literals, places })
    }

    // Adds a clause over so many atoms, or says why not.
    pub fn post(&mut self, atoms: u16, clause: &[u16]) -> Result<(), Refusal>
        ensures answer { result ≡ ground_answer (post_ground atoms self.old clause.now) }
        ensures posted { self.new ≡ posted_to self.old clause.now (post_ground atoms self.old clause.now) }
    {
        if !atoms_below(atoms, clause) {
            return Err(Refusal::NoSuchAtom);
        }
        if names_twice(clause) {
            return Err(Refusal::AtomTwice);
        }
        if self.places.len() >= MOST_CLAUSES || self.literals.len() + clause.len() > MOST_LITERALS {
            return Err(Refusal::QuestionFull);
        }
        let start = self.literals.len();
        // There is room: it was reserved when the clauses were made.
        let Ok(()) = self.literals.extend_from_slice(clause) else {
            unreachable();
        };
        self.places.push_reserved(start..start + clause.len());
        Ok(())
    }

    // Whether some clause has every literal false. There are never more clauses, nor literals in them, than a list can hold.
    pub fn some_dead(&self, assignment: &Assignment) -> bool
        ensures is { result ≡ some_dead (codes_of assignment.now.trail) self.now }
        ensures few { (length self.now < 2 ^ 63) × (literals_in self.now < 2 ^ 63) }
    {
        let literals = self.literals.as_slice();
        self.places.iter().any(|place| assignment.is_dead(&literals[place.start..place.end]))
    }

    // The literal to be forced: the due literal of the first clause that has one.
    pub fn first_due(&self, assignment: &Assignment) -> Option<u16>
        ensures { result ≡ first_due (codes_of assignment.now.trail) self.now }
    {
        let literals = self.literals.as_slice();
        self.places
            .iter()
            .find_map(|place| assignment.due(&literals[place.start..place.end]))
    }
}
