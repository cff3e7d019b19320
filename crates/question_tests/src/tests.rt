use pair::Pair;
use question::asked::replay::{Answer, Call, Replayed, replay};
use refusals::Refusal;
use std::alloc::{AllocError, Global};
use std::process::Abort;
use std::test::Fail;
use theory::Theory;
use theory::stack::Literal;
use theory_steps::{difference, equality, switches};

// Posts the clauses, which are all accepted, and then makes the calls.
fn expect<T: Theory + Drop>(
    rt: &impl Abort,
    heap: Global,
    theory: T,
    clauses: &[&[u16]],
    rows: &[(Call, Answer)],
) -> Result<(), Fail> {
    let mut calls = Vec::new(heap);
    for clause in clauses {
        calls.push(Call::Post(clause))?;
    }
    for (call, _) in rows {
        calls.push(*call)?;
    }
    let Replayed { answers, theory: _ } = replay(heap, theory, calls.as_slice()).map_err(
        AllocError::from,
    )?;
    assert_eq!(rt; answers.len(), calls.len());
    for answer in answers.iter().take(clauses.len()) {
        assert_eq!(rt; *answer, Answer::Accepted);
    }
    for (answer, (_, expected)) in answers.iter().skip(clauses.len()).zip(rows) {
        assert_eq!(rt; answer, expected);
    }
    Ok(())
}

// The answer that shows a world.
fn world<const N: usize>(heap: Global, numbers: [i64; N]) -> Result<Answer, AllocError> {
    Ok(Answer::World(Vec::from_array(heap, numbers)?))
}

#[test]
fn verdicts(rt: HostRuntime) -> Result<(), Fail> {
    let heap = rt.alloc();
    expect(
        &rt,
        heap,
        switches(heap, 2, 2)?,
        &[&[1, 2], &[1, 3]],
        &[
            (Call::Search(2), Answer::Found(2)),
            (Call::World, world(heap, [0, 1])?),
        ],
    )?;
    expect(
        &rt,
        heap,
        switches(heap, 0, 0)?,
        &[],
        &[
            (Call::Search(0), Answer::Found(0)),
            (Call::World, world(heap, [])?),
            (Call::End, Answer::Ended),
            (Call::Post(&[]), Answer::Accepted),
            (Call::Search(0), Answer::NoneExist(0)),
        ],
    )
}

// More pigeons than holes: each pigeon has a hole, and no hole has two. Atom `holes * p + h` puts pigeon p into hole h.
#[test]
fn pigeonholes(rt: HostRuntime) -> Result<(), Fail> {
    let heap = rt.alloc();
    expect(
        &rt,
        heap,
        switches(heap, 6, 6)?,
        &[
            &[0, 2],
            &[4, 6],
            &[8, 10],
            &[1, 5],
            &[1, 9],
            &[5, 9],
            &[3, 7],
            &[3, 11],
            &[7, 11],
        ],
        &[
            (Call::Search(63), Answer::NoneExist(1)),
            // in parts, to the same verdict and the same total
            (Call::Search(0), Answer::Paused(0)),
            (Call::Resume(0), Answer::Paused(0)),
            (Call::Resume(1), Answer::NoneExist(1)),
        ],
    )
}

#[test]
fn decisions_granted_one_by_one(rt: HostRuntime) -> Result<(), Fail> {
    let heap = rt.alloc();
    // four pigeons, three holes
    expect(
        &rt,
        heap,
        switches(heap, 12, 12)?,
        &[
            &[0, 2, 4],
            &[6, 8, 10],
            &[12, 14, 16],
            &[18, 20, 22],
            &[1, 7],
            &[1, 13],
            &[1, 19],
            &[7, 13],
            &[7, 19],
            &[13, 19],
            &[3, 9],
            &[3, 15],
            &[3, 21],
            &[9, 15],
            &[9, 21],
            &[15, 21],
            &[5, 11],
            &[5, 17],
            &[5, 23],
            &[11, 17],
            &[11, 23],
            &[17, 23],
        ],
        &[
            (Call::Search(8), Answer::NoneExist(8)),
            (Call::Search(1), Answer::Paused(1)),
            (Call::Resume(1), Answer::Paused(1)),
            (Call::Resume(1), Answer::Paused(1)),
            (Call::Resume(1), Answer::Paused(1)),
            (Call::Resume(1), Answer::Paused(1)),
            (Call::Resume(1), Answer::Paused(1)),
            (Call::Resume(1), Answer::Paused(1)),
            (Call::Resume(1), Answer::NoneExist(1)),
        ],
    )
}

#[test]
fn clauses_refused(rt: HostRuntime) -> Result<(), Fail> {
    let heap = rt.alloc();
    expect(
        &rt,
        heap,
        switches(heap, 2, 2)?,
        &[],
        &[
            (Call::Post(&[0, 1]), Answer::Refused(Refusal::AtomTwice)),
            (Call::Post(&[2, 2]), Answer::Refused(Refusal::AtomTwice)),
            (Call::Post(&[4]), Answer::Refused(Refusal::NoSuchAtom)),
            // of several grounds the first counts
            (
                Call::Post(&[0, 0, 65_535]),
                Answer::Refused(Refusal::NoSuchAtom),
            ),
            (Call::Search(2), Answer::Found(2)),
        ],
    )
}

#[test]
fn most_clauses(rt: HostRuntime) -> Result<(), Fail> {
    let heap = rt.alloc();
    let clause: &[u16] = &[1];
    expect(
        &rt,
        heap,
        switches(heap, 1, 1)?,
        &[clause; 256],
        &[
            (Call::Post(&[1]), Answer::Refused(Refusal::QuestionFull)),
            (Call::Post(&[]), Answer::Refused(Refusal::QuestionFull)),
            (Call::Search(0), Answer::Found(0)),
        ],
    )
}

#[test]
fn most_literals(rt: HostRuntime) -> Result<(), Fail> {
    let heap = rt.alloc();
    let mut codes = Vec::new(heap);
    for atom in 0..512u16 {
        codes.push(2 * atom)?;
    }
    expect(
        &rt,
        heap,
        switches(heap, 512, 512)?,
        &[codes.as_slice(); 4],
        &[
            (Call::Post(&[1]), Answer::Refused(Refusal::QuestionFull)),
            (Call::Search(1), Answer::Paused(1)),
            (Call::End, Answer::Ended),
            (Call::Post(&[]), Answer::Accepted),
            (Call::Search(0), Answer::NoneExist(0)),
        ],
    )
}

#[test]
fn forbidden_by_the_stage(rt: HostRuntime) -> Result<(), Fail> {
    let heap = rt.alloc();
    expect(
        &rt,
        heap,
        switches(heap, 2, 2)?,
        &[&[1, 2], &[1, 3]],
        &[
            (Call::Resume(1), Answer::Refused(Refusal::StageForbids)),
            (Call::World, Answer::Refused(Refusal::StageForbids)),
            (Call::End, Answer::Refused(Refusal::StageForbids)),
            (Call::Search(1), Answer::Paused(1)),
            (Call::Post(&[]), Answer::Refused(Refusal::StageForbids)),
            (Call::Search(9), Answer::Refused(Refusal::StageForbids)),
            (Call::World, Answer::Refused(Refusal::StageForbids)),
            (Call::Close, Answer::Refused(Refusal::StageForbids)),
            (Call::Resume(1), Answer::Found(1)),
            (Call::Post(&[]), Answer::Refused(Refusal::StageForbids)),
            (Call::Search(9), Answer::Refused(Refusal::StageForbids)),
            (Call::Resume(9), Answer::Refused(Refusal::StageForbids)),
            (Call::Close, Answer::Refused(Refusal::StageForbids)),
            (Call::World, world(heap, [0, 1])?),
            (Call::End, Answer::Ended),
            (Call::Close, Answer::Closed),
            (Call::Post(&[]), Answer::Refused(Refusal::StageForbids)),
            (Call::Search(9), Answer::Refused(Refusal::StageForbids)),
            (Call::Resume(9), Answer::Refused(Refusal::StageForbids)),
            (Call::World, Answer::Refused(Refusal::StageForbids)),
            (Call::End, Answer::Refused(Refusal::StageForbids)),
            (Call::Close, Answer::Refused(Refusal::StageForbids)),
        ],
    )
}

// three times, each limited by the one before
const T: [(u16, u16, i32); 3] = [(0, 1, -2), (1, 2, -3), (2, 0, 4)];

// the equalities of three variables
const E: [(u16, u16); 3] = [(0, 1), (1, 2), (0, 2)];

#[test]
fn over_limits(rt: HostRuntime) -> Result<(), Fail> {
    let heap = rt.alloc();
    expect(
        &rt,
        heap,
        difference(heap, 3, &T, 3)?,
        &[],
        &[
            (Call::Search(2), Answer::Paused(2)),
            // atom 2 is decided, though its plain literal clashes
            (Call::Resume(1), Answer::Found(1)),
            (Call::End, Answer::Ended),
            (Call::Post(&[0]), Answer::Accepted),
            (Call::Post(&[2]), Answer::Accepted),
            (Call::Search(10), Answer::Found(1)),
            (Call::World, world(heap, [-5, -3, 0])?),
            (Call::End, Answer::Ended),
            (Call::Post(&[4]), Answer::Accepted),
            (Call::Search(0), Answer::NoneExist(0)),
        ],
    )
}

#[test]
fn over_a_pair(rt: HostRuntime) -> Result<(), Fail> {
    let heap = rt.alloc();
    let limits = difference(heap, 3, &T, 3)?;
    let equalities = equality(heap, 3, &E, 3)?;
    let pair = Pair::new(limits, equalities, Vec::<Literal>::with_capacity(heap, 6)?);
    expect(
        &rt,
        heap,
        pair,
        &[&[0], &[6], &[9]],
        &[
            (Call::Search(10), Answer::Found(3)),
            (Call::World, world(heap, [-5, -3, 0, 0, 0, 2])?),
            (Call::End, Answer::Ended),
            (Call::Post(&[8, 10]), Answer::Accepted),
            (Call::Search(0), Answer::NoneExist(0)),
        ],
    )
}
