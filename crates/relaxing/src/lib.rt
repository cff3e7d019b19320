// The latest times, none above zero, that meet limits on their differences; or that there are no such times.
#![tactic(auto)]

ghost use Rattle.std.specs.Prelude.{◌≡◌, ℕ, ◌+◌, ◌*◌, ◌≤◌, length, MatchBool};
ghost use Rattle.std.specs.List.{AllByRecursion};
ghost use Rattle.relaxing.specs.Limits.{Fits, Shallow, lowers, relaxed, moves, pass, latest, Latest, NoTimes};

use theory::stack::Record;

// A limit on two times: the time of `a` less the time of `b` is at most `weight`. The code names the literal that
// asks for it, which relaxing does not look at.
#[derive(Clone, Copy, PartialEq, Eq, Debug)]
pub struct Limit {
    pub code: u16,
    pub a: u16,
    pub b: u16,
    pub weight: i64,
}

impl Record for Limit {
    ghost coded = { λ l. l.code };

    fn code(&self) -> u16 {
        self.code
    }
}

// Lowers the time of `a` where the limit asks for it, and says whether it did.
fn relax_one(limit: Limit, times: &mut [i64]) -> bool
    requires fits { Fits (length times.old) limit }
    requires shallow { Shallow 1000000000000 times.old }
    ensures moved { result ≡ lowers times.old limit }
    ensures after { times.new ≡ relaxed times.old limit }
{
    let after = times[limit.b as usize] + limit.weight;
    if after < times[limit.a as usize] {
        times[limit.a as usize] = after;
        return true;
    }
    false
}

// One pass over the limits, each change counting at once. Says whether anything changed.
fn relax_pass(limits: &[Limit], times: &mut [i64]) -> bool
    requires fits { AllByRecursion (Fits (length times.old)) limits.now }
    requires shallow { (deep : ℕ) × Shallow deep times.old × (deep + length limits.now * 1000001 ≤ 1000000000000) }
    ensures moved { result ≡ moves limits.now times.old }
    ensures after { times.new ≡ pass limits.now times.old }
{
    let mut moved = false;
    for limit in limits {
        moved |= relax_one(*limit, times);
    }
    moved
}

// Writes the latest times that meet the limits, none above zero, and answers true; or answers false where no times meet
// them, and leaves what the last pass made of them. A cycle of limits whose sum is below zero has no times; it shows by a
// change in as many passes as there are times. An error would carry nothing,
// so a `Result` would say no more than yes or no.
pub fn relax(limits: &[Limit], times: &mut [i64]) -> bool
    requires fits { AllByRecursion (Fits (length times.old)) limits.now }
    requires few { (length limits.now ≤ 513) × (length times.old ≤ 512) }
    ensures latest { MatchBool result (Latest limits.now times.new) (NoTimes limits.now (length times.old)) }
    ensures after { MatchBool result (times.new ≡ latest limits.now (length times.old)) (times.new ≡ pass limits.now (latest limits.now (length times.old))) }
{
    times.fill(0);
    for _ in 0..times.len().max(1) {
        if !relax_pass(limits, times) {
            return true;
        }
    }
    false
}
