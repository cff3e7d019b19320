// The calls of a question.
#![tactic(auto, using(crate::proofs::Staged::moves))]

ghost use Rattle.std.specs.Prelude.{◌≡◌, [], Ok, Err, MatchResult};
ghost use Rattle.steps.specs.Calls.{state_after};
ghost use Rattle.steps.specs.Steps.{Runs};
ghost use Rattle.question.specs.Answers.{verdict_of, count_of, OpenBy, PostBy, SearchBy, ResumeBy, WorldBy, EndBy, CloseBy};
ghost use Rattle.question.specs.Asked.{clauses_of, trail_of, state_of, meaning_of};
ghost use Rattle.question.specs.Stages.{stage_after};

use super::Question;
use super::searching::{Ended, Solver};
use crate::{
    Ask, Denied, EndPass, FoundPass, OpenPass, Outcome, Pass, PausedPass, Stage, next_stage,
};
use clauses::posted::Clauses;
use refusals::Refusal;
use std::alloc::{AllocFailed, Global};
use steps::Verdict;
use theory::Theory;

// That a call leaves what the theory means is a clause of each, since no type compares before and after.
impl<T: Theory> Question<T> {
    // Opens a question over a theory, whose stack is emptied. All memory is reserved here; for want of it the theory is
    // given back as it was: it outlives the call that failed, so `?` alone does not do.
    pub fn open(heap: Global, theory: T) -> Result<(Question<T>, OpenPass), AllocFailed<T>>
        ensures { OpenBy T.Theory theory result }
    {
        let Ok(clauses) = Clauses::new(heap) else {
            return Err(AllocFailed { value: theory });
        };
        let solver = Solver::new(heap, theory)?;
        let question = Question {
            solver,
            stage: Stage::Open,
            clauses,
        };
        Ok((question, OpenPass(0)))
    }

    // The stage that a call leads to, its pass spent; or the pass back, with the refusal.
    fn take<P: Pass>(&self, pass: P, ask: Ask) -> Result<Stage, Denied<P>>
        ensures { MatchResult result (λ stage. Ok stage ≡ stage_after self.now.stage ask) (λ denied. (Err denied.refusal ≡ stage_after self.now.stage ask) × (denied.pass ≡ pass)) }
    {
        match next_stage(self.stage, ask) {
            Ok(stage) => {
                pass.spend();
                Ok(stage)
            }
            Err(refusal) => Err(Denied { refusal, pass }),
        }
    }

    // Adds a clause.
    pub fn post(&mut self, _pass: &OpenPass, clause: &[u16]) -> Result<(), Refusal>
        ensures same { meaning_of self.new ≡ meaning_of self.old }
        ensures by { PostBy (meaning_of self.old) (state_of self.old) clause.now result (state_of self.new) }
    {
        next_stage(self.stage, Ask::Post)?;
        let atoms = self.solver.assignment.atoms();
        self.clauses.post(atoms, clause)
    }

    // Searches for numbers that satisfy all clauses, with so many decisions granted.
    pub fn search(&mut self, pass: OpenPass, grant: u32) -> Result<Outcome, Denied<OpenPass>>
        ensures same { meaning_of self.new ≡ meaning_of self.old }
        ensures by { SearchBy (meaning_of self.old) (state_of self.old) grant pass result (state_of self.new) }
    {
        self.take(pass, Ask::Search)?;
        Ok(self.conclude(grant))
    }

    // Goes on with a paused search, with so many more decisions granted. It and `search` are two public calls of two lines, over
    // what they share.
    pub fn resume(&mut self, pass: PausedPass, grant: u32) -> Result<Outcome, Denied<PausedPass>>
        ensures same { meaning_of self.new ≡ meaning_of self.old }
        ensures by { ResumeBy (meaning_of self.old) (state_of self.old) grant pass result (state_of self.new) }
    {
        self.take(pass, Ask::Resume)?;
        Ok(self.conclude(grant))
    }

    // Searches from the trail as it is, and moves to the stage that the verdict leads to.
    fn conclude(&mut self, grant: u32) -> Outcome
        ensures same { meaning_of self.new ≡ meaning_of self.old }
        ensures runs { Runs (meaning_of self.old) (clauses_of self.old) grant (trail_of self.old) (verdict_of result) (count_of result) (trail_of self.new) }
        ensures state { state_of self.new ≡ state_after (verdict_of result) (clauses_of self.old) (trail_of self.new) }
    {
        let Ended { verdict, count } = self.solver.run(&self.clauses, grant);
        match verdict {
            Verdict::Found => {
                self.stage = Stage::Found;
                Outcome::Found(FoundPass(0), count)
            }
            Verdict::NoneExist => {
                self.stage = Stage::Open;
                Outcome::NoneExist(OpenPass(0), count)
            }
            Verdict::Paused => {
                self.stage = Stage::Paused;
                Outcome::Paused(PausedPass(0), count)
            }
        }
    }

    // Writes the numbers that were found to the front of a list.
    pub fn world(&self, _pass: &FoundPass, list: &mut [i64]) -> Result<(), Refusal>
        ensures { WorldBy (meaning_of self.now) (state_of self.now) (T.given_world self.now.solver.theory) list.old result list.new }
    {
        next_stage(self.stage, Ask::World)?;
        self.solver.theory.world(list)
    }

    // Ends a search that is paused or has found something.
    pub fn end(&mut self, pass: EndPass) -> Result<OpenPass, Denied<EndPass>>
        ensures same { meaning_of self.new ≡ meaning_of self.old }
        ensures by { EndBy (meaning_of self.old) (state_of self.old) pass result (state_of self.new) }
    {
        self.take(pass, Ask::End)?;
        self.solver.clear();
        self.stage = Stage::Open;
        Ok(OpenPass(0))
    }

    // Closes the question: no call is allowed any more.
    pub fn close(&mut self, pass: OpenPass) -> Result<(), Denied<OpenPass>>
        ensures same { meaning_of self.new ≡ meaning_of self.old }
        ensures by { CloseBy (meaning_of self.old) (state_of self.old) pass result (state_of self.new) }
    {
        self.stage = self.take(pass, Ask::Close)?;
        Ok(())
    }

    // Takes a question apart, in any stage: its theory, with an empty stack.
    pub fn into_theory(self) -> T
        ensures same { T.meaning result ≡ meaning_of self }
        ensures empty { T.stack result ≡ [] }
    {
        let Question {
            solver,
            stage: _,
            clauses: _,
        } = self;
        solver.into_theory()
    }
}
