use refusals::Refusal;
use std::test::Fail;
use theory_steps::{Step, difference, equality, run, switches};

// three times, each limited by the one before
const T: [(u16, u16, i32); 3] = [(0, 1, -2), (1, 2, -3), (2, 0, 4)];

#[test]
fn limits_in_a_cycle(rt: HostRuntime) -> Result<(), Fail> {
    let heap = rt.alloc();
    let mut theory = difference(heap, 3, &T, 3)?;
    run(
        heap,
        &mut theory,
        &[
            Step::Sizes(3, 3),
            Step::World(&[0, 0, 0]),
            Step::Set(0),
            Step::Set(2),
            Step::World(&[-5, -3, 0]),
            Step::Clash(4, &[4, 0, 2]),
            Step::World(&[-5, -3, 0]),
            Step::Set(5),
            Step::World(&[-5, -3, 0]),
            Step::Refused(6, 8, Refusal::NoSuchAtom),
            Step::Refused(6, 0, Refusal::NoSuchAtom),
            Step::Refused(4, 8, Refusal::AtomSet),
            Step::Refused(5, 0, Refusal::AtomSet),
            Step::RetreatTooFar(4),
            Step::Retreat(1),
            Step::Refused(4, 2, Refusal::ConflictListShort),
            Step::WorldTooLong(2),
            Step::Retreat(0),
            Step::Retreat(2),
            Step::World(&[0, 0, 0]),
            Step::RetreatTooFar(1),
        ],
    )?;
    Ok(())
}

#[test]
fn limits_at_the_edge(rt: HostRuntime) -> Result<(), Fail> {
    let heap = rt.alloc();
    // a cycle whose sum is 0 is no clash
    let mut cycle = difference(heap, 3, &[(0, 1, -2), (1, 2, -3), (2, 0, 5)], 3)?;
    run(
        heap,
        &mut cycle,
        &[
            Step::Set(0),
            Step::Set(2),
            Step::Set(4),
            Step::World(&[-5, -3, 0]),
        ],
    )?;
    // a limit of a time on itself
    let mut itself = difference(heap, 1, &[(0, 0, -1)], 1)?;
    run(
        heap,
        &mut itself,
        &[Step::Clash(0, &[0]), Step::Set(1), Step::World(&[0])],
    )?;
    // the opposite of a - b <= 0 is b - a <= -1
    let mut opposite = difference(heap, 2, &[(0, 1, 0)], 1)?;
    run(heap, &mut opposite, &[Step::Set(1), Step::World(&[0, -1])])?;
    let mut widest = difference(heap, 2, &[(0, 1, -1_000_000), (1, 0, 1_000_000)], 2)?;
    run(
        heap,
        &mut widest,
        &[
            Step::Set(0),
            Step::Set(2),
            Step::World(&[-1_000_000, 0]),
            Step::Retreat(2),
            Step::Set(1),
            Step::World(&[0, 0]),
            Step::Clash(3, &[3, 1]),
            Step::Retreat(1),
            Step::Set(3),
            Step::World(&[-1_000_001, 0]),
        ],
    )?;
    Ok(())
}

#[test]
fn tables_that_show_nothing(rt: HostRuntime) -> Result<(), Fail> {
    let heap = rt.alloc();
    let nothing = [
        Step::Sizes(0, 0),
        Step::World(&[]),
        Step::Refused(0, 8, Refusal::NoSuchAtom),
    ];
    let mut places = difference(heap, 3, &T, 2)?;
    run(heap, &mut places, &nothing)?;
    let mut variables = difference(heap, 513, &T, 3)?;
    run(heap, &mut variables, &nothing)?;
    let mut variable = difference(heap, 2, &T, 3)?;
    run(heap, &mut variable, &nothing)?;
    let mut limit = difference(heap, 3, &[(0, 1, 1_000_001)], 3)?;
    run(heap, &mut limit, &nothing)?;
    let mut joins = equality(heap, 2, &[(0, 2)], 1)?;
    run(heap, &mut joins, &nothing)?;
    let mut joins_places = equality(heap, 3, &[(0, 2)], 0)?;
    run(heap, &mut joins_places, &nothing)?;
    let mut many = switches(heap, 513, 600)?;
    run(heap, &mut many, &nothing)?;
    let mut few_places = switches(heap, 2, 1)?;
    run(heap, &mut few_places, &nothing)?;
    Ok(())
}

#[test]
fn equalities(rt: HostRuntime) -> Result<(), Fail> {
    let heap = rt.alloc();
    let mut theory = equality(heap, 4, &[(0, 1), (1, 2), (0, 2), (3, 3)], 4)?;
    run(
        heap,
        &mut theory,
        &[
            Step::Sizes(4, 4),
            Step::World(&[0, 1, 2, 3]),
            Step::Set(2),
            Step::World(&[0, 1, 1, 3]),
            Step::Set(0),
            Step::World(&[0, 0, 0, 3]),
            Step::Clash(5, &[5, 2, 0]),
            Step::Set(4),
            Step::Clash(7, &[7, 2, 0, 4]),
            Step::Set(6),
            Step::Refused(8, 8, Refusal::NoSuchAtom),
            Step::Refused(3, 8, Refusal::AtomSet),
            Step::Retreat(3),
            Step::Refused(0, 3, Refusal::ConflictListShort),
            Step::Set(5),
            Step::Clash(0, &[0, 2, 5]),
            Step::Set(1),
            Step::World(&[0, 1, 1, 3]),
            Step::WorldTooLong(3),
            Step::RetreatTooFar(4),
        ],
    )?;
    let mut cycle = equality(heap, 3, &[(0, 1), (1, 2), (0, 2)], 3)?;
    run(
        heap,
        &mut cycle,
        &[Step::Set(0), Step::Set(2), Step::Clash(5, &[5, 0, 2])],
    )?;
    Ok(())
}

#[test]
fn plain_switches(rt: HostRuntime) -> Result<(), Fail> {
    let heap = rt.alloc();
    let mut theory = switches(heap, 3, 3)?;
    run(
        heap,
        &mut theory,
        &[
            Step::Sizes(3, 3),
            Step::World(&[0, 0, 0]),
            Step::Set(4),
            Step::Set(1),
            Step::World(&[0, 0, 1]),
            Step::Refused(0, 8, Refusal::AtomSet),
            Step::Refused(6, 8, Refusal::NoSuchAtom),
            Step::Refused(2, 2, Refusal::ConflictListShort),
            Step::Set(2),
            Step::World(&[0, 1, 1]),
            Step::Retreat(2),
            Step::World(&[0, 0, 1]),
            Step::RetreatTooFar(2),
            Step::WorldTooLong(2),
        ],
    )?;
    Ok(())
}
