// The equality theory: variables that are to be equal or to differ.
#![tactic(auto)]

ghost use Rattle.joining.specs.Joins.{Fits, labelled};
ghost use Rattle.equality.specs.Equalities.{spare_entry, entry_join, holds_in, equality_meaning, have_numbers, LowestWorld};
ghost use Rattle.equality.specs.Laws;

use joining::{Join, join_all};
use table_theory::{Procedure, TableTheory};
use tables::EqualityEntry;

// A table of pairs of variables, of which a literal joins two or sets them apart. What is set always has a world, and the one
// that is given has for each variable the lowest variable that set equalities join to it, its own included.
pub type Equality = TableTheory<LowestJoined>;

// Decides joins by the lowest variables that equalities join.
pub struct LowestJoined;

impl Procedure for LowestJoined {
    type Entry = EqualityEntry;

    type Record = Join;

    ghost spare = { spare_entry };

    ghost asked = { entry_join };

    ghost Fits = { Fits };

    ghost holds = { holds_in };

    ghost solved = { have_numbers };

    ghost solution = { labelled };

    ghost remains = { labelled };

    ghost Best = { λ variables table joins labels. LowestWorld (equality_meaning variables table) joins labels };

    ghost laws = { Laws.join_laws };

    ghost best = { Laws.lowest_world };

    // The join that a literal of an entry asks for.
    fn ask(entry: EqualityEntry, code: u16) -> Join {
        let EqualityEntry { a, b } = entry;
        Join {
            code,
            a,
            b,
            equal: code % 2 == 0,
        }
    }

    fn solve(joins: &[Join], labels: &mut [i64]) -> bool {
        join_all(joins, labels)
    }
}
