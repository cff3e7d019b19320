use pair::Pair;
use refusals::Refusal;
use std::alloc::{AllocError, Global};
use std::test::Fail;
use theory::stack::Literal;
use theory_steps::{Step, difference, equality, run, switches};

// three times, each limited by the one before
const T: [(u16, u16, i32); 3] = [(0, 1, -2), (1, 2, -3), (2, 0, 4)];

// the equalities of three variables
const E: [(u16, u16); 3] = [(0, 1), (1, 2), (0, 2)];

fn places(heap: Global, count: usize) -> Result<Vec<Literal>, AllocError> {
    Vec::with_capacity(heap, count)
}

#[test]
fn limits_beside_equalities(rt: HostRuntime) -> Result<(), Fail> {
    let heap = rt.alloc();
    let limits = difference(heap, 3, &T, 3)?;
    let equalities = equality(heap, 3, &E, 3)?;
    let mut pair = Pair::new(limits, equalities, places(heap, 6)?);
    run(
        heap,
        &mut pair,
        &[
            Step::Sizes(6, 6),
            Step::World(&[0, 0, 0, 0, 1, 2]),
            Step::Set(6),
            Step::World(&[0, 0, 0, 0, 0, 2]),
            // from here on the sides take turns
            Step::Set(0),
            Step::Set(8),
            Step::Set(2),
            Step::World(&[-5, -3, 0, 0, 0, 0]),
            Step::Clash(4, &[4, 0, 2]),
            Step::Clash(11, &[11, 6, 8]),
            Step::World(&[-5, -3, 0, 0, 0, 0]),
            Step::Set(5),
            Step::Set(10),
            Step::World(&[-5, -3, 0, 0, 0, 0]),
            Step::Refused(12, 8, Refusal::NoSuchAtom),
            Step::Refused(12, 0, Refusal::NoSuchAtom),
            Step::Refused(4, 8, Refusal::AtomSet),
            Step::Refused(11, 8, Refusal::AtomSet),
            Step::Refused(5, 5, Refusal::AtomSet),
            Step::Refused(7, 0, Refusal::AtomSet),
            Step::RetreatTooFar(7),
            Step::Retreat(0),
            Step::Retreat(2),
            Step::Refused(4, 5, Refusal::ConflictListShort),
            Step::Refused(11, 5, Refusal::ConflictListShort),
            Step::Clash(11, &[11, 6, 8]),
            Step::WorldTooLong(5),
            Step::Retreat(1),
            Step::World(&[-2, 0, 0, 0, 0, 0]),
            Step::Retreat(2),
            Step::World(&[0, 0, 0, 0, 0, 2]),
            Step::RetreatTooFar(2),
            Step::Retreat(1),
            Step::World(&[0, 0, 0, 0, 1, 2]),
            Step::RetreatTooFar(1),
        ],
    )?;
    Ok(())
}

#[test]
fn pair_in_a_pair(rt: HostRuntime) -> Result<(), Fail> {
    let heap = rt.alloc();
    let limits = difference(heap, 3, &T, 3)?;
    let equalities = equality(heap, 3, &E, 3)?;
    let inner = Pair::new(equalities, switches(heap, 2, 2)?, places(heap, 5)?);
    let mut pair = Pair::new(limits, inner, places(heap, 8)?);
    run(
        heap,
        &mut pair,
        &[
            Step::Sizes(8, 8),
            Step::World(&[0, 0, 0, 0, 1, 2, 0, 0]),
            Step::Set(12),
            Step::Set(8),
            Step::Set(0),
            Step::Set(6),
            Step::Set(2),
            Step::World(&[-5, -3, 0, 0, 0, 0, 1, 0]),
            Step::Clash(11, &[11, 8, 6]),
            Step::Clash(4, &[4, 0, 2]),
            Step::Set(15),
            Step::Refused(16, 8, Refusal::NoSuchAtom),
            Step::Refused(14, 8, Refusal::AtomSet),
            Step::Refused(13, 7, Refusal::AtomSet),
            Step::Refused(5, 7, Refusal::ConflictListShort),
            Step::WorldTooLong(7),
            Step::RetreatTooFar(7),
            Step::Retreat(4),
            Step::World(&[0, 0, 0, 0, 1, 1, 1, 0]),
            Step::Retreat(2),
            Step::World(&[0, 0, 0, 0, 1, 2, 0, 0]),
        ],
    )?;
    Ok(())
}

#[test]
fn most_atoms_and_variables(rt: HostRuntime) -> Result<(), Fail> {
    let heap = rt.alloc();
    let most = [
        Step::Sizes(512, 512),
        Step::Refused(1023, 511, Refusal::ConflictListShort),
        Step::Refused(1024, 512, Refusal::NoSuchAtom),
        Step::WorldTooLong(511),
    ];
    let mut beside_none = Pair::new(
        switches(heap, 512, 512)?,
        switches(heap, 0, 0)?,
        places(heap, 512)?,
    );
    run(heap, &mut beside_none, &most)?;
    let mut halves = Pair::new(
        switches(heap, 256, 256)?,
        switches(heap, 256, 256)?,
        places(heap, 512)?,
    );
    run(heap, &mut halves, &most)?;
    Ok(())
}

#[test]
fn pairs_that_show_nothing(rt: HostRuntime) -> Result<(), Fail> {
    let heap = rt.alloc();
    let nothing = [
        Step::Sizes(0, 0),
        Step::World(&[]),
        Step::Refused(0, 8, Refusal::NoSuchAtom),
        Step::RetreatTooFar(1),
    ];
    let mut atoms = Pair::new(
        switches(heap, 256, 256)?,
        switches(heap, 257, 257)?,
        places(heap, 513)?,
    );
    run(heap, &mut atoms, &nothing)?;
    let mut variables = Pair::new(
        difference(heap, 512, &[], 0)?,
        switches(heap, 1, 1)?,
        places(heap, 1)?,
    );
    run(heap, &mut variables, &nothing)?;
    let mut few_places = Pair::new(
        switches(heap, 2, 2)?,
        switches(heap, 2, 2)?,
        places(heap, 3)?,
    );
    run(heap, &mut few_places, &nothing)?;
    Ok(())
}

#[test]
fn made_and_taken_apart(rt: HostRuntime) -> Result<(), Fail> {
    let heap = rt.alloc();
    let mut limits = difference(heap, 3, &T, 3)?;
    run(heap, &mut limits, &[Step::Set(2), Step::World(&[0, -3, 0])])?;
    let equalities = equality(heap, 3, &E, 3)?;
    // what was set before is dropped
    let mut pair = Pair::new(limits, equalities, places(heap, 6)?);
    run(
        heap,
        &mut pair,
        &[
            Step::World(&[0, 0, 0, 0, 1, 2]),
            Step::RetreatTooFar(1),
            Step::Set(0),
            Step::Set(8),
            Step::Set(6),
        ],
    )?;
    // what is set stays set
    let (mut limits, mut equalities) = pair.into_parts();
    run(
        heap,
        &mut limits,
        &[
            Step::World(&[-2, 0, 0]),
            Step::Refused(0, 3, Refusal::AtomSet),
            Step::RetreatTooFar(2),
        ],
    )?;
    run(
        heap,
        &mut equalities,
        &[
            Step::World(&[0, 0, 0]),
            Step::Clash(5, &[5, 2, 0]),
            Step::RetreatTooFar(3),
        ],
    )?;
    Ok(())
}
