// Theories whose atoms are the entries of a table. A decision procedure says what a literal of an entry asks for, and whether
// there is a world as the set literals ask.
#![tactic(auto)]

ghost use Rattle.std.specs.Prelude.{◌≡◌, ℕ, ◌≤◌, true, Bool, if◌then◌else◌, List, [], ◌∷◌, map, length, ℤ, vec_len, vec_capacity};
ghost use Rattle.std.specs.List.{AllByRecursion};
ghost use Rattle.tables.specs.Entries.{all_entries_fit};
ghost use Rattle.theory.specs.Calls.{world_answer, world_written};
ghost use Rattle.theory.specs.Meaning.{different};
ghost use Rattle.theory.proofs.Apart.{different_at};
ghost use Rattle.table_theory.specs.Drawing.{fits_by, records_of, table_meaning, shown_table, shown_variables, ProcedureLaws};
ghost use Rattle.table_theory.specs.Laws;

use refusals::Refusal;
use tables::{Entry, table_fits};
use theory::stack::{Record, Stack};
use theory::{MOST, Sizes, Theory};

// A decision procedure over the entries of a table.
//
// A literal of an entry asks for a record. A record holds of a world, a number for each variable, or does not. The procedure
// decides whether records hold together of any world, and gives one.
pub trait Procedure {
    type Entry: Entry + Copy;

    type Record: Record;

    // an entry that nothing asks for
    ghost spare: { Self.Entry };

    // the record that a literal of an entry asks for
    ghost asked: { Self.Entry → ℕ → Self.Record };

    // a record is over so many variables
    ghost Fits: { ℕ → Self.Record → Type 0 };

    // whether a record holds of a world
    ghost holds: { Self.Record → List ℤ → Bool };

    // whether records over so many variables hold together of a world, and of which
    ghost solved: { List Self.Record → ℕ → Bool };

    ghost solution: { List Self.Record → ℕ → List ℤ };

    // what is left in the list where they do not
    ghost remains: { List Self.Record → ℕ → List ℤ };

    // what is promised of the solution among all worlds: of so many variables, a table and records of it
    ghost Best: { ℕ → List Self.Entry → List Self.Record → List ℤ → Type 0 };

    fn ask(entry: Self::Entry, code: u16) -> Self::Record
        ensures { result ≡ asked entry code };

    // Writes the solution of the records and answers true, or answers false where they hold together of no world, and leaves
    // numbers of its own. An error would carry nothing, so a `Result` would say no more than yes or no.
    fn solve(records: &[Self::Record], numbers: &mut [i64]) -> bool
        requires fits { AllByRecursion (Fits (length numbers.old)) records.now }
        requires few { (length records.now ≤ 513) × (length numbers.old ≤ 512) }
        ensures solved { result ≡ solved records.now (length numbers.old) }
        ensures written { numbers.new ≡ (if solved records.now (length numbers.old) then solution records.now (length numbers.old) else remains records.now (length numbers.old)) };

    ghost laws: { ProcedureLaws Self.Entry.checked Self.Record.coded asked Fits holds solved solution };

    ghost best: { (variables : ℕ) (table : List Self.Entry) (records : List Self.Record) → records ≡ records_of asked spare table (map Self.Record.coded records)
        → AllByRecursion (Fits variables) records → solved records variables ≡ true → Best variables table records (solution records variables) };
}

// A table over so many variables, of whose entries a literal sets one or its opposite. What is set always has a solution.
#[derive(Drop)]
pub struct TableTheory<P: Procedure> {
    variables: usize,
    table: Vec<P::Entry>,
    stack: Stack<P::Record>,
    ghost fits: { all_entries_fit (fits_by P.Entry.checked) variables table.items ≡ true },
    ghost places: { vec_len table ≤ stack.places },
    ghost apart: { different (vec_len table) (map P.Record.coded stack.records) ≡ true },
    ghost drawn: { stack.records ≡ records_of P.asked P.spare table.items (map P.Record.coded stack.records) },
    ghost settled: { P.solved stack.records variables ≡ true },
}

// Whether records over so many variables have a solution. No call of a theory may ask for memory, so the numbers go into an
// array of the most that there may be.
fn have_solution<P: Procedure>(records: &[P::Record], variables: usize) -> bool
    requires fits { AllByRecursion (P.Fits variables) records.now }
    requires few { (length records.now ≤ 513) × (variables ≤ 512) }
    ensures { result ≡ P.solved records.now variables }
{
    let mut numbers = [0i64; MOST];
    P::solve(records, &mut numbers[..variables])
}

impl<P: Procedure> TableTheory<P> {
    // A theory over the table, with an empty stack over the places handed in. A table that is refused, or that has more
    // entries than there are places, shows as no atoms and no variables.
    pub fn new(variables: usize, mut table: Vec<P::Entry>, places: Vec<P::Record>) -> Self
        ensures table { result.table.items ≡ shown_table (fits_by P.Entry.checked) variables table.items (vec_capacity places) }
        ensures variables { result.variables ≡ shown_variables (fits_by P.Entry.checked) variables table.items (vec_capacity places) }
        ensures empty { result.stack.records ≡ [] }
    {
        let stack = Stack::new(places);
        if table_fits(variables, table.as_slice()) && table.len() <= stack.places() {
            return TableTheory {
                variables,
                table,
                stack,
            };
        }
        table.clear();
        TableTheory {
            variables: 0,
            table,
            stack,
        }
    }

    // Writes the solution of what the set literals ask for to the front of a list.
    pub fn solution(&self, list: &mut [i64]) -> Result<(), Refusal>
        ensures answer { result ≡ world_answer self.now.variables list.old }
        ensures written { list.new ≡ world_written self.now.variables (P.solution self.now.stack.records self.now.variables) list.old }
        ensures best { P.Best self.now.variables self.now.table.items self.now.stack.records (P.solution self.now.stack.records self.now.variables) }
    {
        if list.len() < self.variables {
            return Err(Refusal::WorldListShort);
        }
        P::solve(self.stack.records(), &mut list[..self.variables]);
        Ok(())
    }
}

impl<P: Procedure> Theory for TableTheory<P> {
    ghost meaning = { λ t. table_meaning P.asked P.holds P.spare t.variables t.table.items };

    ghost stack = { λ t. map P.Record.coded t.stack.records };

    ghost given_world = { λ t. P.solution t.stack.records t.variables };

    // the new literal and all set literals
    ghost given_conflict = { λ t code. code ∷ map P.Record.coded t.stack.records };

    ghost lawful = { λ t. Laws.lawful P.laws P.spare t.variables t.table.items t.fits };

    ghost apart = { λ t. different_at (map P.Record.coded t.stack.records) t.apart t.table.ok.0 };

    ghost worldly = { λ t. Laws.worldly P.laws P.spare t.variables t.table.items t.stack.records t.drawn t.settled };

    fn sizes(&self) -> Sizes {
        Sizes {
            atoms: self.table.len(),
            variables: self.variables,
        }
    }

    fn set(&mut self, code: u16, conflict: &mut [u16]) -> Result<(), Refusal> {
        self.stack.check(self.table.len(), code, conflict.len())?;
        let record = P::ask(self.table[code as usize / 2], code);
        self.stack.push(record);
        if have_solution::<P>(self.stack.records(), self.variables) {
            return Ok(());
        }
        let _ = self.stack.retreat(1);
        Err(Refusal::Clash(self.stack.write_codes(code, conflict)))
    }

    fn retreat(&mut self, count: usize) -> Result<(), Refusal> {
        self.stack.retreat(count)
    }

    fn world(&self, list: &mut [i64]) -> Result<(), Refusal> {
        self.solution(list)
    }
}
