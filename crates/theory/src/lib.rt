// The theory interface: what a search may take for granted of the theory under it.
#![tactic(auto)]

ghost use Rattle.std.specs.Prelude.{◌≡◌, ℕ, true, List, [], ℤ};
ghost use Rattle.theory.specs.Calls.{SetBy, retreat_answer, retreated, world_answer, world_written};
ghost use Rattle.theory.specs.Meaning.{Meaning, Lawful, different, WorldOf};

use refusals::Refusal;

pub mod stack;

// The most atoms that a theory has, and the most variables.
pub const MOST: usize = 512;

// How many atoms and variables a theory has.
#[derive(Clone, Copy, PartialEq, Eq, Debug)]
pub struct Sizes {
    pub atoms: usize,
    pub variables: usize,
}

// A theory says which literals hold in which worlds, and keeps a stack of set literals that has a world.
//
// An implementation is free only in which world and which conflict it gives. `given_world` and `given_conflict` name
// these choices, so that each call's outcome is an equation. That a call leaves the meaning as it was is a clause of each, since
// a type cannot say it.
pub trait Theory {
    // how many atoms and variables there are, and which literals hold in which worlds
    ghost meaning: { Self → Meaning };

    // the codes of the set literals, oldest first
    ghost stack: { Self → List ℕ };

    // the world that this value gives
    ghost given_world: { Self → List ℤ };

    // the conflict that this value gives where a literal clashes
    ghost given_conflict: { Self → ℕ → List ℕ };

    fn sizes(&self) -> Sizes
        ensures atoms { result.atoms ≡ (meaning self.now).atoms }
        ensures variables { result.variables ≡ (meaning self.now).variables };

    // Puts a literal on the end of the stack, or says why not. Where it clashes with the stack, a conflict is written to
    // the front of the list: the list is lent, and the refusal tells how much of it is the conflict.
    fn set(&mut self, code: u16, conflict: &mut [u16]) -> Result<(), Refusal>
        ensures same { meaning self.new ≡ meaning self.old }
        ensures by { SetBy (meaning self.old) (stack self.old) (given_conflict self.old code) code conflict.old result (stack self.new) conflict.new };

    // Drops the newest literals, so many.
    fn retreat(&mut self, count: usize) -> Result<(), Refusal>
        ensures same { meaning self.new ≡ meaning self.old }
        ensures answer { result ≡ retreat_answer (stack self.old) count }
        ensures dropped { stack self.new ≡ retreated (stack self.old) count };

    // Writes the world to the front of a list.
    fn world(&self, list: &mut [i64]) -> Result<(), Refusal>
        ensures answer { result ≡ world_answer (meaning self.now).variables list.old }
        ensures written { list.new ≡ world_written (meaning self.now).variables (given_world self.now) list.old };

    ghost lawful: { (t : Self) → Lawful (meaning t) };

    ghost apart: { (t : Self) → different (meaning t).atoms (stack t) ≡ true };

    ghost worldly: { (t : Self) → WorldOf (meaning t) (stack t) (given_world t) };
}

// Drops all set literals of a theory.
pub fn retreat_all<T: Theory>(theory: &mut T)
    ensures same { T.Theory.meaning theory.new ≡ T.Theory.meaning theory.old }
    ensures dropped { T.Theory.stack theory.new ≡ [] }
{
    while theory.retreat(1).is_ok() {}
}
