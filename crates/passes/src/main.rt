// Asks a question about two switches call by call. Each call is made with the pass of its stage, and a program that made
// one in another stage would not compile.
#![tactic(auto)]

ghost use Rattle.std.specs.Prelude.{◌≡◌, true};
ghost use Rattle.question.specs.Asked.{state_of};
ghost use Rattle.passes.specs.Staged.{is_open, is_searched, MeetsPass};

use question::asked::Question;
use question::{EndPass, OpenPass, Outcome};
use refusals::Refusal;
use std::alloc::{AllocError, Global};
use std::{fmt, io};
use switches::Switches;
use theory::Theory;

// What a search came to, with the decisions counted. A world that is found is read twice.
#[derive(Clone, Copy)]
enum Told {
    Found(u32, [i64; 2], [i64; 2]),
    Unread(u32),
    NoneExist(u32),
    Paused(u32),
}

impl fmt::Display for Told {
    fn fmt<W: fmt::Write>(&self, f: &mut fmt::Formatter<W>) -> fmt::Result {
        match self {
            Told::Found(count, [a, b], [c, d]) => write!(
                f,
                "found {count}: {a} {b}, again {c} {d}"
            ),
            Told::Unread(count) => write!(f, "found {count}, not read"),
            Told::NoneExist(count) => write!(f, "none {count}"),
            Told::Paused(count) => write!(f, "paused {count}"),
        }
    }
}

// Whether both clauses were posted, what both searches came to, and the switches that the question was about.
#[derive(Drop)]
struct Report {
    posted: bool,
    first: Told,
    second: Told,
    switches: Switches,
}

// An open question allows a search. The pass comes back only where the stage forbids one, which its contract rules out: the
// type of a question does not tell its stage, so each of these functions has the stage as its premise.
fn search<T: Theory>(question: &mut Question<T>, pass: OpenPass, grant: u32) -> Outcome
    requires { is_open (state_of question.old) ≡ true }
    ensures { MeetsPass result (state_of question.new) }
{
    question.search(pass, grant).unwrap()
}

// Likewise, a search under way can be ended.
fn end<T: Theory>(question: &mut Question<T>, pass: EndPass) -> OpenPass
    requires { is_searched (state_of question.old) ≡ true }
    ensures { is_open (state_of question.new) ≡ true }
{
    question.end(pass).unwrap()
}

// And an open question can be closed.
fn close<T: Theory>(question: &mut Question<T>, pass: OpenPass)
    requires { is_open (state_of question.old) ≡ true }
{
    question.close(pass).unwrap()
}

// Adds a clause to an open question, which stays open.
fn post<T: Theory>(
    question: &mut Question<T>,
    pass: &OpenPass,
    clause: &[u16],
) -> Result<(), Refusal>
    requires { is_open (state_of question.old) ≡ true }
    ensures { is_open (state_of question.new) ≡ true }
{
    question.post(pass, clause)
}

// Says what a search came to, and ends it.
fn settle<T: Theory>(question: &mut Question<T>, outcome: Outcome) -> (OpenPass, Told)
    requires { MeetsPass outcome (state_of question.old) }
    ensures { is_open (state_of question.new) ≡ true }
{
    match outcome {
        Outcome::Found(found, count) => {
            let mut world = [0; 2];
            let mut again = [0; 2];
            let read = question.world(&found, &mut world);
            let reread = question.world(&found, &mut again);
            let pass = end(question, EndPass::Found(found));
            if read.is_ok() && reread.is_ok() {
                (pass, Told::Found(count, world, again))
            } else {
                (pass, Told::Unread(count))
            }
        }
        Outcome::NoneExist(pass, count) => (pass, Told::NoneExist(count)),
        Outcome::Paused(paused, count) => {
            let pass = end(question, EndPass::Paused(paused));
            (pass, Told::Paused(count))
        }
    }
}

// Asks about two switches. All memory is reserved before there is a pass, so that nothing fails while one is held.
fn ask(heap: Global) -> Result<Report, AllocError> {
    let theory = Switches::new(2, Vec::with_capacity(heap, 2)?);
    let (mut question, pass) = Question::open(heap, theory)?;
    let once = post(&mut question, &pass, &[1, 2]);
    let outcome = search(&mut question, pass, 2);
    let (pass, first) = settle(&mut question, outcome);
    let twice = post(&mut question, &pass, &[0, 3]);
    let outcome = search(&mut question, pass, 0);
    let (pass, second) = settle(&mut question, outcome);
    close(&mut question, pass);
    Ok(Report {
        posted: once.is_ok() && twice.is_ok(),
        first,
        second,
        switches: question.into_theory(),
    })
}

fn main(rt: HostRuntime) -> io::Result<()> {
    let report = ask(rt.alloc())?;
    let posted = report.posted;
    println!(rt; "posted {posted}")?;
    let Report { first, second, .. } = &report;
    println!(rt; "{first}")?;
    println!(rt; "{second}")?;
    let count = report.switches.sizes().variables;
    println!(rt; "closed, switches {count}")
}
