// The search: the step list, carried out.
#![tactic(auto, using(crate::proofs::Turning::turns))]

ghost use Rattle.std.specs.Prelude.{◌≡◌, ◌≤◌, true, [], reverse, vec_len, IfOk, IfSome, MatchBool, MatchResult};
ghost use Rattle.clauses.specs.Standing.{can_set};
ghost use Rattle.steps.specs.Clauses.{LowestUnset};
ghost use Rattle.steps.specs.Steps.{codes_of, Runs};
ghost use Rattle.question.specs.Held.{AtomsThere};
ghost use Rattle.question.specs.Turns.{Added, Rejected, Popped, OtherSide, Dropped, BackedUp, Exhausted, TurnBackBy, DecidedBy, TurnBy, CountWithin};

use clauses::assignment::{Assignment, opposite};
use clauses::posted::Clauses;
use std::alloc::{AllocError, AllocFailed, Global};
use std::ops::ControlFlow;
use steps::{Entry, Mark, Verdict};
use theory::{Theory, retreat_all};

// A theory with the literals that are set in it, and the list that it writes conflicts to. That a method leaves what the theory
// means is a clause of each, since no type compares before and after.
pub struct Solver<T: Theory> {
    pub(super) theory: T,
    pub(super) assignment: Assignment,
    conflict: Vec<u16>,
    pub ghost same_atoms: { assignment.atoms ≡ (T.meaning theory).atoms },
    pub ghost same_stack: { T.stack theory ≡ reverse (codes_of assignment.trail) },
    pub ghost conflict_places: { vec_len conflict ≡ (T.meaning theory).atoms },
}

// A verdict and the decisions counted.
pub struct Ended {
    pub verdict: Verdict,
    pub count: u32,
}

// The memory of a solver over so many atoms.
fn reserve(heap: Global, atoms: u16) -> Result<(Assignment, Vec<u16>), AllocError>
    ensures { IfOk result (λ memory. (memory.0 ≡ record { atoms = atoms; trail = [] }) × (vec_len memory.1 ≡ atoms)) }
{
    let assignment = Assignment::new(heap, atoms)?;
    let conflict = vec![in heap; 0; atoms as usize]?;
    Ok((assignment, conflict))
}

impl<T: Theory> Solver<T> {
    // Empties the theory's stack. For want of memory the theory is given back as it was: it outlives the call that failed, so
    // `?` alone does not do.
    pub fn new(heap: Global, theory: T) -> Result<Solver<T>, AllocFailed<T>>
        ensures { MatchResult result (λ s. (T.meaning s.theory ≡ T.meaning theory) × (s.assignment.trail ≡ [])) (λ back. back.value ≡ theory) }
    {
        let Ok((assignment, conflict)) = reserve(heap, theory.sizes().atoms as u16) else {
            return Err(AllocFailed { value: theory });
        };
        let mut theory = theory;
        retreat_all(&mut theory);
        Ok(Solver {
            theory,
            assignment,
            conflict,
        })
    }

    // The theory, with an empty stack.
    pub fn into_theory(self) -> T
        ensures same { T.meaning result ≡ T.meaning self.theory }
        ensures empty { T.stack result ≡ [] }
    {
        let Solver {
            mut theory,
            assignment: _,
            conflict: _,
        } = self;
        retreat_all(&mut theory);
        theory
    }

    // Sets a literal, and says whether it could: one that clashes is not set.
    fn try_set(&mut self, code: u16, mark: Mark) -> bool
        requires { can_set (T.meaning self.old.theory).atoms (codes_of self.old.assignment.trail) code ≡ true }
        ensures same { T.meaning self.new.theory ≡ T.meaning self.old.theory }
        ensures by { MatchBool result (Added (T.meaning self.old.theory) self.old.assignment.trail code mark self.new.assignment.trail) (Rejected (T.meaning self.old.theory) self.old.assignment.trail code self.new.assignment.trail) }
    {
        if self.theory.set(code, self.conflict.as_mut_slice()).is_err() {
            return false;
        }
        self.assignment.push(Entry { code, mark }).unwrap();
        true
    }

    // Takes the newest entry off. It can be set again.
    fn undo(&mut self) -> Option<Entry>
        ensures same { T.meaning self.new.theory ≡ T.meaning self.old.theory }
        ensures dropped { Popped self.old.assignment.trail result self.new.assignment.trail }
        ensures unset { IfSome result (λ e. can_set (T.meaning self.new.theory).atoms (codes_of self.new.assignment.trail) e.code ≡ true) }
    {
        let entry = self.assignment.pop()?;
        self.theory.retreat(1).unwrap();
        Some(entry)
    }

    // Takes all entries off.
    pub fn clear(&mut self)
        ensures same { T.meaning self.new.theory ≡ T.meaning self.old.theory }
        ensures empty { self.new.assignment.trail ≡ [] }
    {
        while self.undo().is_some() {}
    }

    // Tries the other side of an entry that came off, where that was decided.
    fn flip(&mut self, entry: Entry) -> bool
        requires { can_set (T.meaning self.old.theory).atoms (codes_of self.old.assignment.trail) entry.code ≡ true }
        ensures same { T.meaning self.new.theory ≡ T.meaning self.old.theory }
        ensures by { MatchBool result (OtherSide (T.meaning self.old.theory) entry self.old.assignment.trail self.new.assignment.trail) (Dropped (T.meaning self.old.theory) entry self.old.assignment.trail self.new.assignment.trail) }
    {
        match entry.mark {
            Mark::Decided => self.try_set(opposite(entry.code), Mark::Flipped),
            Mark::Flipped | Mark::Forced => false,
        }
    }

    // Backs up to the other side of the newest decision that has one. Says whether there was any.
    fn back_up(&mut self) -> bool
        ensures same { T.meaning self.new.theory ≡ T.meaning self.old.theory }
        ensures by { MatchBool result (BackedUp (T.meaning self.old.theory) self.old.assignment.trail self.new.assignment.trail) (Exhausted (T.meaning self.old.theory) self.old.assignment.trail self.new.assignment.trail) }
    {
        while let Some(entry) = self.undo() {
            if self.flip(entry) {
                return true;
            }
        }
        false
    }

    // Backs up, as a turn of the search.
    fn turn_back(&mut self, count: u32) -> ControlFlow<Verdict, u32>
        ensures same { T.meaning self.new.theory ≡ T.meaning self.old.theory }
        ensures by { TurnBackBy (T.meaning self.old.theory) self.old.assignment.trail count result self.new.assignment.trail }
    {
        if self.back_up() {
            ControlFlow::Continue(count)
        } else {
            ControlFlow::Break(Verdict::NoneExist)
        }
    }

    // Sets the lowest unset atom's plain literal, or its opposite where that clashes.
    fn decide(&mut self, atom: u16)
        requires { LowestUnset (T.meaning self.old.theory).atoms (codes_of self.old.assignment.trail) atom }
        ensures same { T.meaning self.new.theory ≡ T.meaning self.old.theory }
        ensures by { DecidedBy (T.meaning self.old.theory) self.old.assignment.trail atom self.new.assignment.trail }
    {
        if self.try_set(2 * atom, Mark::Decided) {
            return;
        }
        // Where a literal clashes, its opposite does not.
        if !self.try_set(2 * atom + 1, Mark::Forced) {
            unreachable();
        }
    }

    // One turn of the search: the first rule that applies, with the backing up that it leads to. What comes back is the
    // decisions counted by now, or the verdict.
    fn turn(&mut self, clauses: &Clauses, grant: u32, count: u32) -> ControlFlow<Verdict, u32>
        requires there { AtomsThere (T.meaning self.old.theory).atoms clauses.now }
        requires granted { count ≤ grant }
        ensures same { T.meaning self.new.theory ≡ T.meaning self.old.theory }
        ensures by { TurnBy (T.meaning self.old.theory) clauses.now grant self.old.assignment.trail count result self.new.assignment.trail }
        ensures within { CountWithin grant result }
    {
        if clauses.some_dead(&self.assignment) {
            return self.turn_back(count);
        }
        if let Some(literal) = clauses.first_due(&self.assignment) {
            if self.try_set(literal, Mark::Forced) {
                return ControlFlow::Continue(count);
            }
            return self.turn_back(count);
        }
        let Some(atom) = self.assignment.lowest_unset() else {
            return ControlFlow::Break(Verdict::Found);
        };
        if count == grant {
            return ControlFlow::Break(Verdict::Paused);
        }
        self.decide(atom);
        ControlFlow::Continue(count + 1)
    }

    // Searches from the trail as it is, with so many decisions granted.
    pub fn run(&mut self, clauses: &Clauses, grant: u32) -> Ended
        requires { AtomsThere (T.meaning self.old.theory).atoms clauses.now }
        ensures same { T.meaning self.new.theory ≡ T.meaning self.old.theory }
        ensures runs { Runs (T.meaning self.old.theory) clauses.now grant self.old.assignment.trail result.verdict result.count self.new.assignment.trail }
    {
        let mut count = 0;
        loop {
            match self.turn(clauses, grant, count) {
                ControlFlow::Continue(counted) => count = counted,
                ControlFlow::Break(verdict) => return Ended { verdict, count },
            }
        }
    }
}
