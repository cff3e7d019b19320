// The set literals with their marks, and for each literal whether it is set.
ghost use Rattle.std.specs.Prelude.{◌≡◌, ◌<◌, true, [], ◌∷◌, IfOk, IfSome, if◌then◌else◌, Ok, Err, MatchOption};
ghost use Rattle.steps.specs.Clauses.{opposite, dead, due, AllSet, LowestUnset};
ghost use Rattle.steps.specs.Steps.{codes_of};
ghost use Rattle.theory.specs.Meaning.{has, names, different};
ghost use Rattle.clauses.specs.Standing.{can_set, newest, older};

use std::alloc::{AllocError, Global};
use std::marker::Model;
use steps::Entry;

// The opposite of a literal.
pub fn opposite(code: u16) -> u16
    ensures { result ≡ opposite code }
{
    if code % 2 == 0 { code + 1 } else { code - 1 }
}

// The set literals, oldest first, which are of different atoms. The flags stand beside them: with a value for each atom in their
// place, nothing would be plainer, and every look and every proof would have the cases of a value.
#[derive(Drop)]
pub struct Assignment {
    atoms: u16,
    entries: Vec<Entry>,
    flags: Vec<bool>,
}

// Contracts see how many atoms there are, and the entries newest first.
impl Model for Assignment {
    ghost use Rattle.std.specs.Prelude.{reverse, vec_capacity};
    ghost use Rattle.clauses.specs.Standing.{Standing, Kept};

    ghost Value = { Standing };

    ghost view = { λ a. record { atoms = a.atoms; trail = reverse a.entries.items } };

    ghost invariant = { λ a. Kept a.atoms (vec_capacity a.entries) (reverse a.entries.items) a.flags.items };
}

impl Assignment {
    // No literal is set, and there is room for one of each atom.
    pub fn new(heap: Global, atoms: u16) -> Result<Assignment, AllocError>
        ensures { IfOk result (λ a. a ≡ record { atoms = atoms; trail = [] }) }
    {
        let entries = Vec::with_capacity(heap, atoms as usize)?;
        let flags = vec![in heap; false; 2 * atoms as usize]?;
        Ok(Assignment {
            atoms,
            entries,
            flags,
        })
    }

    // How many atoms there are. The set literals are of different ones.
    pub fn atoms(&self) -> u16
        ensures count { result ≡ self.now.atoms }
        ensures apart { different self.now.atoms (codes_of self.now.trail) ≡ true }
    {
        self.atoms
    }

    // Whether the literal is set.
    pub fn has(&self, code: u16) -> bool
        ensures { result ≡ has (codes_of self.now.trail) code }
    {
        self.is_set(code as usize)
    }

    // The same of any code, also of one past those of the atoms.
    fn is_set(&self, code: usize) -> bool
        ensures { result ≡ has (codes_of self.now.trail) code }
    {
        code < self.flags.len() && self.flags[code]
    }

    // Whether one of the set literals is of the atom, which has to be there: its flags are read with no look at their length.
    fn names(&self, atom: u16) -> bool
        requires { atom < self.now.atoms }
        ensures { result ≡ names (codes_of self.now.trail) atom }
    {
        let plain = 2 * atom as usize;
        self.flags[plain] || self.flags[plain + 1]
    }

    // Whether the literal's atom is there and is unset.
    pub fn can_set(&self, code: u16) -> bool
        ensures { result ≡ can_set self.now.atoms (codes_of self.now.trail) code }
    {
        code / 2 < self.atoms && !self.names(code / 2)
    }

    // Puts a literal on the end, or hands it back where its atom is not there or is set.
    pub fn push(&mut self, entry: Entry) -> Result<(), Entry>
        ensures answer { result ≡ (if can_set self.old.atoms (codes_of self.old.trail) entry.code then Ok tt else Err entry) }
        ensures trail { self.new.trail ≡ (if can_set self.old.atoms (codes_of self.old.trail) entry.code then entry ∷ self.old.trail else self.old.trail) }
        ensures atoms { self.new.atoms ≡ self.old.atoms }
    {
        if !self.can_set(entry.code) {
            return Err(entry);
        }
        self.entries.push_reserved(entry);
        self.flags[entry.code as usize] = true;
        Ok(())
    }

    // Takes the newest literal off. It can be set again.
    pub fn pop(&mut self) -> Option<Entry>
        ensures answer { result ≡ newest self.old.trail }
        ensures trail { self.new.trail ≡ older self.old.trail }
        ensures atoms { self.new.atoms ≡ self.old.atoms }
        ensures free { IfSome result (λ e. can_set self.new.atoms (codes_of self.new.trail) e.code ≡ true) }
    {
        let entry = self.entries.pop()?;
        self.flags[entry.code as usize] = false;
        Some(entry)
    }

    // The lowest atom that is unset.
    pub fn lowest_unset(&self) -> Option<u16>
        ensures { MatchOption result (AllSet self.now.atoms (codes_of self.now.trail)) (λ atom. LowestUnset self.now.atoms (codes_of self.now.trail) atom) }
    {
        (0..self.atoms).find(|atom| !self.names(*atom))
    }

    // Whether every literal of the clause is false.
    pub fn is_dead(&self, clause: &[u16]) -> bool
        ensures { result ≡ dead (codes_of self.now.trail) clause.now }
    {
        for literal in clause {
            if !self.has(opposite(*literal)) {
                return false;
            }
        }
        true
    }

    // The clause's one unset literal, where all its others are false.
    pub fn due(&self, clause: &[u16]) -> Option<u16>
        ensures { result ≡ due (codes_of self.now.trail) clause.now }
    {
        let mut due = None;
        for literal in clause {
            if self.has(opposite(*literal)) {
                continue;
            }
            if due.is_some() || self.has(*literal) {
                return None;
            }
            due = Some(*literal);
        }
        due
    }
}
