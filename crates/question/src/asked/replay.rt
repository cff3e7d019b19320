// Lists of calls as data, made one after another on a question over any theory.
ghost use Rattle.std.specs.Prelude.{◌≡◌, [], IfOk, MatchResult};
ghost use Rattle.question.specs.Asked.{state_of, meaning_of};
ghost use Rattle.steps.specs.Calls.{Post, World, open_with};
ghost use Rattle.question.specs.Replays.{call_of, outcome_answer, Performed, PerformBy, Answered, ReplayBy};

use super::Question;
use crate::{Denied, EndPass, FoundPass, OpenPass, Outcome, Pass, PausedPass};
use refusals::Refusal;
use std::alloc::{AllocError, AllocFailed, Global};
use theory::Theory;

#[derive(Clone, Copy, PartialEq, Eq, Debug)]
pub enum Call<'a> {
    Post(&'a [u16]),
    Search(u32),
    Resume(u32),
    World,
    End,
    Close,
}

#[derive(PartialEq, Eq, Debug, Drop)]
pub enum Answer {
    Refused(Refusal),
    Accepted,
    Found(u32),
    NoneExist(u32),
    Paused(u32),
    World(Vec<i64>),
    Ended,
    Closed,
}

// The answers to a list of calls, and the theory of the question that gave them.
pub struct Replayed<T> {
    pub answers: Vec<Answer>,
    pub theory: T,
}

// What an outcome says, its pass spent. Nobody else may do this: a pass could be forgotten.
fn told(outcome: Outcome) -> Answer
    ensures { result ≡ outcome_answer outcome }
{
    match outcome {
        Outcome::Found(FoundPass(_), count) => Answer::Found(count),
        Outcome::NoneExist(OpenPass(_), count) => Answer::NoneExist(count),
        Outcome::Paused(PausedPass(_), count) => Answer::Paused(count),
    }
}

// The answer to a call that takes a pass. Where the call is refused, the pass that comes back is spent.
fn answer_of<P: Pass>(taken: Result<Answer, Denied<P>>) -> Answer
    ensures { MatchResult taken (λ answer. result ≡ answer) (λ denied. result ≡ Answer.Refused denied.refusal) }
{
    taken.unwrap_or_else(|Denied { refusal, pass }| {
        pass.spend();
        Answer::Refused(refusal)
    })
}

impl<T: Theory> Question<T> {
    // Makes a call in whatever stage the question is, with a pass made for it: where the stage forbids the call, the pass
    // comes back with the refusal. Only the numbers of a world need memory. Calls are data of a closed kind, so a match
    // chooses among them.
    pub fn perform(&mut self, heap: Global, call: &Call) -> Result<Answer, AllocError>
        ensures same { meaning_of self.new ≡ meaning_of self.old }
        ensures by { PerformBy (meaning_of self.old) (state_of self.old) (call_of (meaning_of self.old).variables call.now) result (state_of self.new) }
    {
        let answer = match *call {
            Call::Post(clause) => self.replay_post(clause),
            Call::Search(grant) => answer_of(self.search(OpenPass(0), grant).map(told)),
            Call::Resume(grant) => answer_of(self.resume(PausedPass(0), grant).map(told)),
            Call::World => self.replay_world(heap)?,
            Call::End => answer_of(
                self.end(EndPass::Paused(PausedPass(0)))
                    .map(|OpenPass(_)| Answer::Ended),
            ),
            Call::Close => answer_of(self.close(OpenPass(0)).map(|()| Answer::Closed)),
        };
        Ok(answer)
    }

    fn replay_post(&mut self, clause: &[u16]) -> Answer
        ensures same { meaning_of self.new ≡ meaning_of self.old }
        ensures by { Performed (meaning_of self.old) (state_of self.old) (Post clause.now) result (state_of self.new) }
    {
        let pass = OpenPass(0);
        let answer = self.post(&pass, clause);
        pass.spend();
        match answer {
            Ok(()) => Answer::Accepted,
            Err(refusal) => Answer::Refused(refusal),
        }
    }

    fn replay_world(&self, heap: Global) -> Result<Answer, AllocError>
        ensures { PerformBy (meaning_of self.now) (state_of self.now) (World (meaning_of self.now).variables) result (state_of self.now) }
    {
        let mut numbers = vec![in heap; 0i64; self.solver.theory.sizes().variables]?;
        let pass = FoundPass(0);
        let answer = self.world(&pass, numbers.as_mut_slice());
        pass.spend();
        match answer {
            Ok(()) => Ok(Answer::World(numbers)),
            Err(refusal) => Ok(Answer::Refused(refusal)),
        }
    }

    // Makes the calls one after another, on a question that has just been opened.
    fn perform_all(&mut self, heap: Global, calls: &[Call]) -> Result<Vec<Answer>, AllocError>
        requires { state_of self.old ≡ open_with [] }
        ensures same { meaning_of self.new ≡ meaning_of self.old }
        ensures by { IfOk result (λ answers. Answered (meaning_of self.old) calls.now answers.items) }
    {
        let mut answers = Vec::with_capacity(heap, calls.len())?;
        for call in calls {
            answers.push_reserved(self.perform(heap, call)?);
        }
        Ok(answers)
    }
}

// Opens a question over the theory and makes the calls one after another. For want of memory only the theory comes back: it
// outlives the call that failed, so `?` alone does not do.
pub fn replay<T: Theory>(
    heap: Global,
    theory: T,
    calls: &[Call],
) -> Result<Replayed<T>, AllocFailed<T>>
    ensures { ReplayBy T.Theory theory calls.now result }
{
    let (mut question, pass) = Question::open(heap, theory)?;
    pass.spend();
    let answers = question.perform_all(heap, calls);
    let theory = question.into_theory();
    match answers {
        Ok(answers) => Ok(Replayed { answers, theory }),
        Err(_) => Err(AllocFailed { value: theory }),
    }
}
