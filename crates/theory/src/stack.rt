// One stack for every kind of record that a theory keeps of a set literal.
ghost use Rattle.std.specs.Prelude.{◌≡◌, ℕ, ◌+◌, ◌^◌, ◌<◌, ◌≤◌, List, [], ◌∷◌, ◌++◌, map, length, drop, vec_len, vec_capacity};
ghost use Rattle.theory.specs.Calls.{set_ground, ground_answer, retreat_answer, retreated};
ghost use Rattle.theory.specs.Meaning.{has, names};

use refusals::Refusal;
use std::marker::Model;

// What a theory keeps of a set literal. It knows the literal's code. A wrapper with the code beside the rest would save these
// short impls, but would stand between relaxing or joining and their records.
pub trait Record: Copy {
    ghost coded: { Self → ℕ };

    fn code(&self) -> u16
        ensures { result ≡ coded self.now };
}

// A record of nothing but the literal.
#[derive(Clone, Copy, PartialEq, Eq, Debug)]
pub struct Literal {
    pub code: u16,
}

impl Record for Literal {
    ghost coded = { λ l. l.code };

    fn code(&self) -> u16 {
        self.code
    }
}

// The records of the set literals, oldest first, in places that are handed in: the capacity of a `Vec`.
#[derive(Drop)]
pub struct Stack<R> {
    records: Vec<R>,
}

// Contracts see the records, and how many there are places for.
impl<R> Model for Stack<R> {
    ghost use Rattle.std.specs.Prelude.{vec_capacity};
    ghost use Rattle.theory.specs.Held.{Held};

    ghost Value = { Held R };

    ghost view = { λ s. record { records = s.records.items; places = vec_capacity s.records } };
}

impl<R: Record> Stack<R> {
    // An empty stack over the places handed in.
    pub fn new(places: Vec<R>) -> Self
        ensures { result ≡ record { records = []; places = vec_capacity places } }
    {
        let mut records = places;
        records.clear();
        Stack { records }
    }

    // How many records there are places for. There are never more records.
    pub fn places(&self) -> usize
        ensures count { result ≡ self.now.places }
        ensures room { (length self.now.records ≤ self.now.places) × (self.now.places < 2 ^ 63) }
    {
        self.records.capacity()
    }

    pub fn records(&self) -> &[R]
        ensures { result.now ≡ self.now.records }
    {
        self.records.as_slice()
    }

    // Whether a record is of the atom.
    pub fn names_atom(&self, atom: usize) -> bool
        ensures { result ≡ names (map R.Record.coded self.now.records) atom }
    {
        self.records
            .iter()
            .any(|record| record.code() as usize / 2 == atom)
    }

    // Whether the literal with the code is set.
    pub fn has_code(&self, code: usize) -> bool
        ensures { result ≡ has (map R.Record.coded self.now.records) code }
    {
        self.records
            .iter()
            .any(|record| record.code() as usize == code)
    }

    // Why a literal is not even looked at, of `atoms` atoms and with so many places for a conflict.
    pub fn check(&self, atoms: usize, code: u16, places: usize) -> Result<(), Refusal>
        ensures { result ≡ ground_answer (set_ground atoms (map R.Record.coded self.now.records) code places) }
    {
        let atom = code as usize / 2;
        if atom >= atoms {
            return Err(Refusal::NoSuchAtom);
        }
        if self.names_atom(atom) {
            return Err(Refusal::AtomSet);
        }
        if places < atoms {
            return Err(Refusal::ConflictListShort);
        }
        Ok(())
    }

    pub fn push(&mut self, newest: R)
        requires { length self.old.records < self.old.places }
        ensures { self.new ≡ record { records = self.old.records ++ (newest ∷ []); places = self.old.places } }
    {
        self.records.push_reserved(newest);
    }

    // Drops the newest records, so many.
    pub fn retreat(&mut self, count: usize) -> Result<(), Refusal>
        ensures answer { result ≡ retreat_answer self.old.records count }
        ensures dropped { self.new ≡ record { records = retreated self.old.records count; places = self.old.places } }
    {
        if count > self.records.len() {
            return Err(Refusal::MoreThanSet);
        }
        self.records.truncate(self.records.len() - count);
        Ok(())
    }

    // Writes a code and then the codes of all records to the front of a list, and answers how many that are. The first code
    // stands before the records', so each of these goes one place further on.
    pub fn write_codes(&self, first: u16, list: &mut [u16]) -> usize
        requires { length self.now.records < length list.old }
        ensures count { result ≡ length self.now.records + 1 }
        ensures written { list.new ≡ (first ∷ map R.Record.coded self.now.records) ++ drop (length self.now.records + 1) list.old }
    {
        list[0] = first;
        for (i, record) in self.records.iter().enumerate() {
            list[i + 1] = record.code();
        }
        self.records.len() + 1
    }
}
