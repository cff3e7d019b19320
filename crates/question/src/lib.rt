// A question over any theory: clauses are posted, a search decides them, and passes say which calls the stage allows.
#![tactic(auto)]

ghost use Rattle.std.specs.Prelude.{◌≡◌};
ghost use Rattle.question.specs.Stages.{stage_after};

use refusals::Refusal;

pub mod asked;

// What a question is doing: taking clauses, waiting for more decisions, showing what was found, or nothing more.
#[derive(Clone, Copy, PartialEq, Eq, Debug)]
pub enum Stage {
    Open,
    Paused,
    Found,
    Closed,
}

// A call, as far as the stage is concerned: without what it carries, which no stage looks at.
#[derive(Clone, Copy, PartialEq, Eq, Debug)]
pub enum Ask {
    Post,
    Search,
    Resume,
    World,
    End,
    Close,
}

// A pass says that a question's stage allows certain calls. It can be neither copied nor dropped, nor made elsewhere: the
// calls that change the stage take one and give the next. They are three plain types: one type with a parameter
// for the stage would need a marker type for each, and would say no more.
pub struct OpenPass(u32);

pub struct PausedPass(u32);

pub struct FoundPass(u32);

// A pass with which a search can be ended.
pub enum EndPass {
    Paused(PausedPass),
    Found(FoundPass),
}

// What takes a pass and gives none back spends it.
pub(crate) trait Pass {
    fn spend(self);
}

impl Pass for OpenPass {
    fn spend(self) {
        let OpenPass(_) = self;
    }
}

impl Pass for PausedPass {
    fn spend(self) {
        let PausedPass(_) = self;
    }
}

impl Pass for FoundPass {
    fn spend(self) {
        let FoundPass(_) = self;
    }
}

impl Pass for EndPass {
    fn spend(self) {
        match self {
            EndPass::Paused(pass) => pass.spend(),
            EndPass::Found(pass) => pass.spend(),
        }
    }
}

// What a search came to: the pass of the stage that it leads to, and the decisions counted.
pub enum Outcome {
    Found(FoundPass, u32),
    NoneExist(OpenPass, u32),
    Paused(PausedPass, u32),
}

// A call that was refused, with the pass that it hands back.
pub struct Denied<P> {
    pub refusal: Refusal,
    pub pass: P,
}

// The stage that a call leads to, or the refusal where the stage does not allow it. A search leaves its question paused
// until its verdict is known. Stage and call decide together, so this is one match.
fn next_stage(stage: Stage, ask: Ask) -> Result<Stage, Refusal>
    ensures { result ≡ stage_after stage ask }
{
    match (stage, ask) {
        (Stage::Open, Ask::Post) => Ok(Stage::Open),
        (Stage::Open, Ask::Search) => Ok(Stage::Paused),
        (Stage::Open, Ask::Close) => Ok(Stage::Closed),
        (Stage::Paused, Ask::Resume) => Ok(Stage::Paused),
        (Stage::Paused, Ask::End) => Ok(Stage::Open),
        (Stage::Found, Ask::World) => Ok(Stage::Found),
        (Stage::Found, Ask::End) => Ok(Stage::Open),
        _ => Err(Refusal::StageForbids),
    }
}
