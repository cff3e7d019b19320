// A pair of two theories, again a theory: the left's atoms and variables come first, the right's behind them.
#![tactic(auto)]

ghost use Rattle.std.specs.Prelude.{◌≡◌, ◌+◌, ◌<◌, ◌≤◌, true, [], count_by, map, vec_items, vec_capacity};
ghost use Rattle.std.specs.List.{AllByRecursion};
ghost use Rattle.pair.specs.Pairs.{is_left, raised, pair_sizes, RaisedSetBy, Together};

use refusals::Refusal;
use theory::stack::{Literal, Stack};
use theory::{MOST, Sizes, Theory, retreat_all};

// Two theories side by side. The stack holds the literals in the order in which they came, whichever side they went to.
#[derive(Drop)]
pub struct Pair<L: Theory, R: Theory> {
    left: L,
    right: R,
    // the left's sizes: literals and variables beyond them are the right's
    cut: Sizes,
    // what the pair shows
    sizes: Sizes,
    stack: Stack<Literal>,
    // each side holds what is set of its own
    pub ghost together: { Together (L.Theory.meaning left) (R.Theory.meaning right) (L.Theory.stack left) (R.Theory.stack right) (map (λ c. c.code) stack.records) stack.places cut sizes },
}

// How many of the literals are the left's, which has so many atoms.
fn count_left(came: &[Literal], atoms: usize) -> usize
    ensures { result ≡ count_by (λ c. is_left atoms c.code) came.now }
{
    came.iter()
        .filter(|literal| literal.code as usize / 2 < atoms)
        .count()
}

// Numbers literals higher by so much.
fn raise(codes: &mut [u16], by: u16)
    requires { AllByRecursion (λ code. code + by < 65536) codes.old }
    ensures { codes.new ≡ raised by codes.old }
{
    for code in codes.iter_mut() {
        *code += by;
    }
}

// Sets a literal of a theory whose literals the caller numbers higher by so much, in the list too.
fn set_raised<T: Theory>(
    theory: &mut T,
    by: u16,
    code: u16,
    conflict: &mut [u16],
) -> Result<(), Refusal>
    requires { (by ≤ code) × (by ≤ 1024) }
    ensures same { T.Theory.meaning theory.new ≡ T.Theory.meaning theory.old }
    ensures by { RaisedSetBy by (T.Theory.meaning theory.old) (T.Theory.stack theory.old) (T.Theory.given_conflict theory.old) code conflict.old result (T.Theory.stack theory.new) conflict.new }
{
    let answer = theory.set(code - by, conflict);
    if let Err(Refusal::Clash(count)) = answer {
        raise(&mut conflict[..count], by);
    }
    answer
}

// The theory with nothing set.
fn emptied<T: Theory>(mut theory: T) -> T
    ensures same { T.Theory.meaning result ≡ T.Theory.meaning theory }
    ensures dropped { T.Theory.stack result ≡ [] }
{
    retreat_all(&mut theory);
    theory
}

// The sizes of a pair of theories of these sizes, with so many places for its stack.
fn shown_sizes(left: Sizes, right: Sizes, places: usize) -> Sizes
    requires { (left.atoms ≤ 512) × ((left.variables ≤ 512) × ((right.atoms ≤ 512) × (right.variables ≤ 512))) }
    ensures { result ≡ pair_sizes places left right }
{
    let atoms = left.atoms + right.atoms;
    let variables = left.variables + right.variables;
    if atoms <= MOST && variables <= MOST && atoms <= places {
        Sizes { atoms, variables }
    } else {
        Sizes {
            atoms: 0,
            variables: 0,
        }
    }
}

impl<L: Theory, R: Theory> Pair<L, R> {
    ghost use Rattle.pair.specs.Held.{codes_of, meaning_of};
    ghost use Rattle.pair.specs.Pairs.{pair_fits, shown_pair, sizes_of, PairExact};

    // The two theories side by side, with empty stacks, over the places handed in. A pair with too many atoms or variables,
    // or with more atoms than places, shows none.
    pub fn new(left: L, right: R, places: Vec<Literal>) -> Self
        ensures left { (L.Theory.meaning result.left ≡ L.Theory.meaning left) × (L.Theory.stack result.left ≡ []) }
        ensures right { (R.Theory.meaning result.right ≡ R.Theory.meaning right) × (R.Theory.stack result.right ≡ []) }
        ensures shown { meaning_of result ≡ shown_pair (vec_capacity places) (L.Theory.meaning left) (R.Theory.meaning right) }
        ensures empty { codes_of result ≡ [] }
        ensures exact { pair_fits (vec_capacity places) (sizes_of (L.Theory.meaning left)) (sizes_of (R.Theory.meaning right)) ≡ true → PairExact (meaning_of result) (L.Theory.meaning left) (R.Theory.meaning right) }
    {
        let left = emptied(left);
        let right = emptied(right);
        let stack = Stack::new(places);
        let cut = left.sizes();
        let sizes = shown_sizes(cut, right.sizes(), stack.places());
        Pair {
            left,
            right,
            cut,
            sizes,
            stack,
        }
    }

    // Takes a pair apart: both theories as they are, each with its literals set.
    pub fn into_parts(self) -> (L, R)
        ensures left { result.0 ≡ self.left }
        ensures right { result.1 ≡ self.right }
    {
        let Pair { left, right, .. } = self;
        (left, right)
    }
}

impl<L: Theory, R: Theory> Theory for Pair<L, R> {
    ghost use Rattle.pair.specs.Held.{codes_of, meaning_of, world_of, conflict_of, places_of};
    ghost use Rattle.pair.specs.Worlds.{pair_lawful, together_worldly};

    ghost meaning = { meaning_of };

    ghost stack = { codes_of };

    ghost given_world = { world_of };

    ghost given_conflict = { conflict_of };

    ghost lawful = { λ p. pair_lawful (L.Theory.meaning p.left) (R.Theory.meaning p.right) (L.Theory.lawful p.left) (R.Theory.lawful p.right) (places_of p) };

    ghost apart = { λ p. p.together.apart };

    ghost worldly = { λ p. together_worldly p.together (L.Theory.worldly p.left) (R.Theory.worldly p.right) };

    fn sizes(&self) -> Sizes {
        self.sizes
    }

    // The side looks through its own stack, so the pair's is looked through only where the list is too short.
    fn set(&mut self, code: u16, conflict: &mut [u16]) -> Result<(), Refusal> {
        let atoms = self.sizes.atoms;
        if conflict.len() < atoms {
            return self.stack.check(atoms, code, conflict.len());
        }
        if code as usize / 2 >= atoms {
            return Err(Refusal::NoSuchAtom);
        }
        let cut = 2 * self.cut.atoms;
        if (code as usize) < cut {
            self.left.set(code, conflict)?;
        } else {
            set_raised(&mut self.right, cut as u16, code, conflict)?;
        }
        self.stack.push(Literal { code });
        Ok(())
    }

    fn retreat(&mut self, count: usize) -> Result<(), Refusal> {
        let came = self.stack.records();
        if count > came.len() {
            return Err(Refusal::MoreThanSet);
        }
        let lefts = count_left(&came[came.len() - count..], self.cut.atoms);
        self.left.retreat(lefts)?;
        self.right.retreat(count - lefts)?;
        self.stack.retreat(count)
    }

    fn world(&self, list: &mut [i64]) -> Result<(), Refusal> {
        if list.len() < self.sizes.variables {
            return Err(Refusal::WorldListShort);
        }
        // without variables nothing is to be written; the sides may have some where the pair shows none
        if self.sizes.variables == 0 {
            return Ok(());
        }
        self.left.world(list)?;
        self.right.world(&mut list[self.cut.variables..])
    }
}
