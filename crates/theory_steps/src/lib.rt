// Tables of steps: what a test asks of a theory through the interface, and what it should answer.
#![tactic(auto)]

use difference::Difference;
use equality::Equality;
use refusals::Refusal;
use std::alloc::{AllocError, Global};
use switches::Switches;
use table_theory::{Procedure, TableTheory};
use tables::{DifferenceEntry, EqualityEntry};
use theory::{Sizes, Theory};

// What is asked of a theory, and what it should answer.
#[derive(Clone, Copy)]
pub enum Step {
    // the literal is accepted
    Set(u16),
    // the literal clashes, with this conflict
    Clash(u16, &'static [u16]),
    // the literal is refused, with a conflict list of so many places
    Refused(u16, usize, Refusal),
    // so many literals are dropped
    Retreat(usize),
    // more literals than are set cannot be dropped
    RetreatTooFar(usize),
    // the world, with later entries unchanged
    World(&'static [i64]),
    // a list of so many places is too short for the world
    WorldTooLong(usize),
    Sizes(usize, usize),
}

const PLACES: usize = 8;

const SPARE_CODE: u16 = 999;

const SPARE_NUMBER: i64 = 999;

// Where a theory answers otherwise than expected, or the memory to ask it in is not to be had.
#[derive(Debug, Drop)]
pub enum Unexpected {
    Memory(AllocError),
    // the step of this number, counted from 0
    Step(usize),
}

impl From<AllocError> for Unexpected {
    fn from(error: AllocError) -> Self {
        Unexpected::Memory(error)
    }
}

// Whether the list has the front, whole, and the spare entry everywhere behind it.
fn fronted<X: Copy + PartialEq>(list: &[X], front: &[X], spare: X) -> bool {
    match list.split_at_checked(front.len()) {
        Some((begin, behind)) => begin == front && behind.iter().all(|entry| *entry == spare),
        None => false,
    }
}

// Whether a call that writes to a list of so many places answers as expected, and writes this front and nothing behind it.
fn answers<X: Copy + PartialEq, F: FnOnce(&mut [X]) -> Result<(), Refusal>>(
    heap: Global,
    call: F,
    places: usize,
    spare: X,
    expected: Result<(), Refusal>,
    front: &[X],
) -> Result<bool, AllocError>
    requires { F.IsAlwaysCallable call }
{
    let mut list = vec![in heap; spare; places]?;
    let answer = call(list.as_mut_slice());
    Ok(answer == expected && fronted(list.as_slice(), front, spare))
}

fn set<T: Theory>(
    heap: Global,
    theory: &mut T,
    code: u16,
    places: usize,
    expected: Result<(), Refusal>,
    conflict: &[u16],
) -> Result<bool, AllocError> {
    answers(
        heap,
        |list| theory.set(code, list),
        places,
        SPARE_CODE,
        expected,
        conflict,
    )
}

fn world<T: Theory>(
    heap: Global,
    theory: &T,
    places: usize,
    expected: Result<(), Refusal>,
    numbers: &[i64],
) -> Result<bool, AllocError> {
    answers(
        heap,
        |list| theory.world(list),
        places,
        SPARE_NUMBER,
        expected,
        numbers,
    )
}

// Whether the step is answered as it should be. Steps are data of a closed kind, so a match chooses among them.
fn perform<T: Theory>(heap: Global, theory: &mut T, step: &Step) -> Result<bool, AllocError> {
    match step {
        Step::Set(code) => set(heap, theory, *code, PLACES, Ok(()), &[]),
        Step::Clash(code, conflict) => set(
            heap,
            theory,
            *code,
            PLACES,
            Err(Refusal::Clash(conflict.len())),
            conflict,
        ),
        Step::Refused(code, places, why) => set(heap, theory, *code, *places, Err(*why), &[]),
        Step::Retreat(count) => Ok(theory.retreat(*count) == Ok(())),
        Step::RetreatTooFar(count) => Ok(theory.retreat(*count) == Err(Refusal::MoreThanSet)),
        Step::World(numbers) => world(heap, theory, PLACES, Ok(()), numbers),
        Step::WorldTooLong(places) => world(
            heap,
            theory,
            *places,
            Err(Refusal::WorldListShort),
            &[],
        ),
        Step::Sizes(atoms, variables) => Ok(
            theory.sizes()
                == Sizes {
                    atoms: *atoms,
                    variables: *variables,
                },
        ),
    }
}

// Asks all of it, in turn, up to the first step that is answered otherwise.
pub fn run<T: Theory>(heap: Global, theory: &mut T, steps: &[Step]) -> Result<(), Unexpected> {
    for (number, step) in steps.iter().enumerate() {
        if !perform(heap, theory, step)? {
            return Err(Unexpected::Step(number));
        }
    }
    Ok(())
}

// A theory over the entries of the rows, with so many places for its stack.
fn over<P: Procedure, X: Copy, F: Fn(X) -> P::Entry>(
    heap: Global,
    variables: usize,
    rows: &[X],
    entry: F,
    places: usize,
) -> Result<TableTheory<P>, AllocError>
    requires { F.IsAlwaysCallable entry }
{
    let mut table = Vec::new(heap);
    for row in rows {
        table.push(entry(*row))?;
    }
    Ok(TableTheory::new(variables, table, Vec::with_capacity(heap, places)?))
}

// A difference theory over the table, with so many places for its stack.
pub fn difference(
    heap: Global,
    variables: usize,
    table: &[(u16, u16, i32)],
    places: usize,
) -> Result<Difference, AllocError> {
    over(
        heap,
        variables,
        table,
        |(a, b, limit)| DifferenceEntry { a, b, limit },
        places,
    )
}

// An equality theory over the table, with so many places for its stack.
pub fn equality(
    heap: Global,
    variables: usize,
    table: &[(u16, u16)],
    places: usize,
) -> Result<Equality, AllocError> {
    over(
        heap,
        variables,
        table,
        |(a, b)| EqualityEntry { a, b },
        places,
    )
}

// So many switches, with so many places for the stack.
pub fn switches(heap: Global, count: usize, places: usize) -> Result<Switches, AllocError> {
    Ok(Switches::new(count, Vec::with_capacity(heap, places)?))
}
