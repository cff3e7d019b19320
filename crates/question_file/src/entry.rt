// The entries of the two tables, as they stand in a file.
ghost use Rattle.std.specs.Prelude.{◌≡◌, ℕ, List, length, if◌then◌else◌, Ok, Err, nat_eq};
ghost use Rattle.refusals.specs.declared.Refusal.TheVariants.{WrongLength};
ghost use Rattle.question_file.specs.Contents.{difference_of, equality_of};

use refusals::Refusal;
use tables::{DifferenceEntry, Entry, EqualityEntry};

// An entry of a table, which stands in a file as the body of a field.
pub(crate) trait FieldEntry: Entry + Copy {
    ghost BODY_LEN: { ℕ };

    // what a body of that length says
    ghost said: { List ℕ → Self };

    const BODY_LEN: usize;

    fn from_body(body: &[u8]) -> Result<Self, Refusal>
        ensures { result ≡ (if nat_eq (length body.now) BODY_LEN then Ok (said body.now) else Err WrongLength) };
}

impl FieldEntry for DifferenceEntry {
    ghost BODY_LEN = { 8 };

    ghost said = { difference_of };

    const BODY_LEN: usize = 8;

    fn from_body(body: &[u8]) -> Result<DifferenceEntry, Refusal> {
        let [a1, a0, b1, b0, k3, k2, k1, k0] = body else {
            return Err(Refusal::WrongLength);
        };
        Ok(DifferenceEntry {
            a: u16::from_be_bytes([*a1, *a0]),
            b: u16::from_be_bytes([*b1, *b0]),
            limit: i32::from_be_bytes([*k3, *k2, *k1, *k0]),
        })
    }
}

impl FieldEntry for EqualityEntry {
    ghost BODY_LEN = { 4 };

    ghost said = { equality_of };

    const BODY_LEN: usize = 4;

    fn from_body(body: &[u8]) -> Result<EqualityEntry, Refusal> {
        let [a1, a0, b1, b0] = body else {
            return Err(Refusal::WrongLength);
        };
        Ok(EqualityEntry {
            a: u16::from_be_bytes([*a1, *a0]),
            b: u16::from_be_bytes([*b1, *b0]),
        })
    }
}
