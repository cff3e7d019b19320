// The entries of a question's two tables, and which entries a table takes.
#![tactic(auto)]

ghost use Rattle.std.specs.Prelude.{◌≡◌, ℕ, Result, is_ok};
ghost use Rattle.refusals.specs.declared.Refusal.{Refusal};
ghost use Rattle.tables.specs.Entries.{variables_check, difference_check, equality_check, all_entries_fit};

use refusals::Refusal;

// The most variables that a question has, and the most atoms.
pub const MOST: usize = 512;

// The farthest that a limit may lie from zero.
pub const FARTHEST_LIMIT: i32 = 1_000_000;

// An atom of the difference theory: the time of `a` less the time of `b` is at most `limit`.
#[derive(Clone, Copy, PartialEq, Eq, Debug, Default)]
pub struct DifferenceEntry {
    pub a: u16,
    pub b: u16,
    pub limit: i32,
}

// An atom of the equality theory: `a` and `b` are equal.
#[derive(Clone, Copy, PartialEq, Eq, Debug, Default)]
pub struct EqualityEntry {
    pub a: u16,
    pub b: u16,
}

// An entry of a table.
pub trait Entry {
    ghost checked: { ℕ → Self → Result (Unit {0}) Refusal };

    // Whether a table over `variables` variables takes this entry, and if not, why.
    fn check(&self, variables: usize) -> Result<(), Refusal>
        ensures { result ≡ checked variables self.now };
}

impl Entry for DifferenceEntry {
    ghost checked = { difference_check };

    fn check(&self, variables: usize) -> Result<(), Refusal> {
        let DifferenceEntry { a, b, limit } = *self;
        check_variables(a, b, variables)?;
        if !(-FARTHEST_LIMIT..=FARTHEST_LIMIT).contains(&limit) {
            return Err(Refusal::LimitOutOfRange);
        }
        Ok(())
    }
}

impl Entry for EqualityEntry {
    ghost checked = { equality_check };

    fn check(&self, variables: usize) -> Result<(), Refusal> {
        check_variables(self.a, self.b, variables)
    }
}

// Whether an entry's two variables are below their theory's count.
fn check_variables(a: u16, b: u16, variables: usize) -> Result<(), Refusal>
    ensures { result ≡ variables_check variables a b }
{
    if usize::from(a) >= variables || usize::from(b) >= variables {
        return Err(Refusal::NoSuchVariable);
    }
    Ok(())
}

// Whether a table over so many variables is taken: not too many variables or entries, and each entry fits.
pub fn table_fits<E: Entry>(variables: usize, table: &[E]) -> bool
    ensures { result ≡ all_entries_fit (λ variables entry. is_ok (E.checked variables entry)) variables table.now }
{
    variables <= MOST
        && table.len() <= MOST
        && table.iter().all(|entry| entry.check(variables).is_ok())
}
