// The loader: a checked file's entries, written into the fronts of the two tables.
ghost use Rattle.std.specs.Prelude.{◌≡◌, ◌+◌, ◌*◌, length, drop};
ghost use Rattle.refusals.specs.Grounds.{map_ok};
ghost use Rattle.question_file.specs.Contents.{counts_of, checked};
ghost use Rattle.question_file.specs.Tables.{Long, entries, room_of, filled_from};
ghost use Rattle.question_file.specs.Writing.{UndoesWriting};

use crate::check::{Counts, Room, check};
use crate::entry::FieldEntry;
use crate::fields::HEAD;
use refusals::Fault;
use tables::{DifferenceEntry, EqualityEntry};

// The bytes of the counts field, which a file begins with.
const COUNTS_FIELD: usize = HEAD + 6;

// Writes an entry into each place, from fields that stand one behind the other, and returns the bytes behind them.
fn fill<'a, E: FieldEntry>(fields: &'a [u8], places: &mut [E]) -> &'a [u8]
    requires { Long E.BODY_LEN (length places.old) fields.now }
    ensures written { places.new ≡ entries E.BODY_LEN E.said (length places.old) fields.now }
    ensures behind { result.now ≡ drop (length places.old * (3 + E.BODY_LEN)) fields.now }
{
    let mut rest = fields;
    for place in places.iter_mut() {
        let (_, field) = rest.split_at(HEAD);
        let (body, behind) = field.split_at(E::BODY_LEN);
        let Ok(entry) = E::from_body(body) else {
            unreachable();
        };
        *place = entry;
        rest = behind;
    }
    rest
}

// Checks every field of a file, then writes its entries into the fronts of the tables. A refused file changes no table.
pub fn load(
    file: &[u8],
    differences: &mut [DifferenceEntry],
    equalities: &mut [EqualityEntry],
) -> Result<Counts, Fault>
    ensures counts { result ≡ map_ok counts_of (checked (room_of differences.old equalities.old) file.now) }
    ensures differences { differences.new ≡ filled_from (λ q. q.differences) (checked (room_of differences.old equalities.old) file.now) differences.old }
    ensures equalities { equalities.new ≡ filled_from (λ q. q.equalities) (checked (room_of differences.old equalities.old) file.now) equalities.old }
    ensures undoes_writing { UndoesWriting (room_of differences.old equalities.old) file.now }
{
    let room = Room {
        differences: differences.len(),
        equalities: equalities.len(),
    };
    let counts = check(file, room)?;
    let fields = &file[COUNTS_FIELD..];
    let behind = fill(fields, &mut differences[..counts.difference_entries]);
    fill(behind, &mut equalities[..counts.equality_entries]);
    Ok(counts)
}
