// The difference theory: limits on the differences of times.
#![tactic(auto)]

ghost use Rattle.relaxing.specs.Limits.{Fits, pass, latest};
ghost use Rattle.difference.specs.Differences.{spare_entry, entry_limit, limit_holds, have_times, difference_meaning, LatestWorld, codes_of};
ghost use Rattle.difference.specs.Laws;

use relaxing::{Limit, relax};
use table_theory::{Procedure, TableTheory};
use tables::DifferenceEntry;

// A table of limits, of which a literal sets one or its opposite. The set limits always have times that meet them, and the
// world is the latest of these times that are not above 0.
pub type Difference = TableTheory<LatestTimes>;

// Decides limits by the latest times that meet them.
pub struct LatestTimes;

impl Procedure for LatestTimes {
    type Entry = DifferenceEntry;

    type Record = Limit;

    ghost spare = { spare_entry };

    ghost asked = { entry_limit };

    ghost Fits = { Fits };

    ghost holds = { limit_holds };

    ghost solved = { have_times };

    ghost solution = { latest };

    // what one more pass makes of them
    ghost remains = { λ limits variables. pass limits (latest limits variables) };

    ghost Best = { λ variables table limits times. LatestWorld (difference_meaning variables table) (codes_of limits) times };

    ghost laws = { Laws.limit_laws };

    ghost best = { Laws.latest_world };

    // The limit that a literal of an entry asks for.
    fn ask(entry: DifferenceEntry, code: u16) -> Limit {
        let DifferenceEntry { a, b, limit } = entry;
        if code % 2 == 0 {
            Limit {
                code,
                a,
                b,
                weight: limit as i64,
            }
        } else {
            Limit {
                code,
                a: b,
                b: a,
                weight: -(limit as i64) - 1,
            }
        }
    }

    fn solve(limits: &[Limit], times: &mut [i64]) -> bool {
        relax(limits, times)
    }
}
