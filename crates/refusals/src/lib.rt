// The grounds on which this program refuses something, and the fault that carries one up to the caller.
#![tactic(auto)]

ghost use Rattle.std.specs.Prelude.{◌≡◌, ◌++◌, Some, codes, decimal};
ghost use Rattle.refusals.specs.Grounds.{number_of, layer_of, fault_at, located_at};

use std::fmt;

// Why something was refused. Each ground has a number, by which output and documents name it.
#[derive(Clone, Copy, PartialEq, Eq, Debug)]
pub enum Refusal {
    // The file is empty, it ends inside a field's first three bytes, or a body runs past its end.
    Torn,
    // A tag is unknown, or does not come in its turn.
    Disordered,
    // A body's length is not the one of its tag.
    WrongLength,
    // The variables, the atoms or the entries of a table would be too many.
    TooMany,
    // A variable's number is not below the count of its theory.
    NoSuchVariable,
    // A limit is too far from zero.
    LimitOutOfRange,
    // The question's stage does not allow the call.
    StageForbids,
    // A literal's atom is not below the count of atoms.
    NoSuchAtom,
    // A clause names an atom twice.
    AtomTwice,
    // The question would hold too many clauses or literals.
    QuestionFull,
    // The atom is already set.
    AtomSet,
    // The conflict list is shorter than the count of atoms.
    ConflictListShort,
    // More literals are to be dropped than are set.
    MoreThanSet,
    // The world list is shorter than the count of variables.
    WorldListShort,
    // The stack with the new literal has no world. The count says how long the conflict is.
    Clash(usize),
}

// What part of the work refused: the reading of fields, the check of tables, or the question.
#[derive(Clone, Copy, PartialEq, Eq, Debug)]
pub enum Layer {
    Field,
    Table,
    Question,
}

// A refusal with its layer and the offset in the file of the field that met it.
#[derive(Clone, Copy, PartialEq, Eq, Debug)]
pub struct Fault {
    pub refusal: Refusal,
    pub layer: Layer,
    pub offset: usize,
}

impl Refusal {
    // The number by which output and documents name the ground. A clash carries a count, so there is no discriminant to cast.
    pub fn number(&self) -> u8
        ensures { result ≡ number_of self.now }
    {
        match self {
            Refusal::Torn => 1,
            Refusal::Disordered => 2,
            Refusal::WrongLength => 3,
            Refusal::TooMany => 4,
            Refusal::NoSuchVariable => 5,
            Refusal::LimitOutOfRange => 6,
            Refusal::StageForbids => 7,
            Refusal::NoSuchAtom => 8,
            Refusal::AtomTwice => 9,
            Refusal::QuestionFull => 10,
            Refusal::AtomSet => 11,
            Refusal::ConflictListShort => 12,
            Refusal::MoreThanSet => 13,
            Refusal::WorldListShort => 14,
            Refusal::Clash(_) => 15,
        }
    }

    pub fn layer(&self) -> Layer
        ensures { result ≡ layer_of self.now }
    {
        match self {
            Refusal::Torn | Refusal::Disordered | Refusal::WrongLength => Layer::Field,
            Refusal::TooMany | Refusal::NoSuchVariable | Refusal::LimitOutOfRange => Layer::Table,
            _ => Layer::Question,
        }
    }

    // The fault of this refusal at the field that begins at `offset`.
    pub fn at(self, offset: usize) -> Fault
        ensures { result ≡ fault_at self offset }
    {
        Fault {
            refusal: self,
            layer: self.layer(),
            offset,
        }
    }
}

// A result whose refusal becomes the fault at the field that begins at `offset`.
pub fn located<T>(res: Result<T, Refusal>, offset: usize) -> Result<T, Fault>
    ensures { result ≡ located_at offset res }
{
    res.map_err(|refusal| refusal.at(offset))
}

impl fmt::Display for Fault {
    ghost output = { λ f. Some (codes "refused " ++ (decimal (number_of f.refusal) ++ (codes " " ++ decimal f.offset))) };

    fn fmt<W: fmt::Write>(&self, f: &mut fmt::Formatter<W>) -> fmt::Result {
        write!(f, "refused {} {}", self.refusal.number(), self.offset)
    }
}
