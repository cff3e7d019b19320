// The check of every field of a file, in turn.
ghost use Rattle.std.specs.Prelude.{◌≡◌, ◌+◌, ◌^◌, ◌<◌, ◌++◌, ◌&&◌, length, cond, Some, Err, codes, decimal, nat_eq, nat_lt};
ghost use Rattle.std.specs.Option.{ok_or};
ghost use Rattle.refusals.specs.Grounds.{map_ok};
ghost use Rattle.refusals.specs.declared.Refusal.TheVariants.{Disordered, WrongLength, TooMany};
ghost use Rattle.question_file.specs.declared.check.Tag.TheVariants.{Counts as CountsTag};
ghost use Rattle.question_file.specs.Contents.{tag_of, follows, in_turn, atoms_fit, count_field, count_more, counts_of, checked};

use crate::entry::FieldEntry;
use crate::fields::{Field, Reader};
use refusals::{Fault, Refusal, located};
use std::fmt;
use tables::{DifferenceEntry, EqualityEntry, MOST};

// The kinds of fields, in the order in which they stand in a file.
#[derive(Clone, Copy, PartialEq, Eq, PartialOrd, Ord, Debug)]
pub enum Tag {
    Counts = 1,
    Difference = 2,
    Equality = 3,
    Clause = 4,
}

// What a file holds, counted.
#[derive(Clone, Copy, PartialEq, Eq, Debug, Default)]
pub struct Counts {
    pub difference_variables: usize,
    pub equality_variables: usize,
    pub switches: usize,
    pub difference_entries: usize,
    pub equality_entries: usize,
    pub clauses: usize,
}

// How many entries the tables have places for.
#[derive(Clone, Copy)]
pub struct Room {
    pub differences: usize,
    pub equalities: usize,
}

// How far a check has come.
#[derive(Clone, Copy, Default)]
struct Progress {
    // the tag of the field before
    before: Option<Tag>,
    counts: Counts,
}

// Here bytes become kinds, so a match names each.
impl TryFrom<u8> for Tag {
    type Error = Refusal;

    ghost try_from_gives = { λ byte tag. tag ≡ ok_or (tag_of byte) Disordered };

    fn try_from(byte: u8) -> Result<Tag, Refusal> {
        match byte {
            1 => Ok(Tag::Counts),
            2 => Ok(Tag::Difference),
            3 => Ok(Tag::Equality),
            4 => Ok(Tag::Clause),
            _ => Err(Refusal::Disordered),
        }
    }
}

impl Tag {
    // Whether this tag may come after the one before it, or as the first.
    fn may_follow(self, before: Option<Tag>) -> bool
        ensures { result ≡ follows before self }
    {
        match before {
            None => self == Tag::Counts,
            Some(before) => self > Tag::Counts && self >= before,
        }
    }

    // The tag of a byte, if it comes in its turn.
    fn in_turn(byte: u8, before: Option<Tag>) -> Result<Tag, Refusal>
        ensures { result ≡ in_turn before (tag_of byte) }
    {
        let tag = Tag::try_from(byte)?;
        if !tag.may_follow(before) {
            return Err(Refusal::Disordered);
        }
        Ok(tag)
    }
}

impl Counts {
    // Whether one atom more stays within the most that there may be. A switch is an atom.
    fn atoms_fit(&self) -> bool
        ensures { result ≡ atoms_fit self.now }
    {
        let entries = self
            .difference_entries
            .saturating_add(self.equality_entries);
        entries.saturating_add(self.switches) < MOST
    }

    // The counts that a file begins with.
    fn from_body(body: &[u8]) -> Result<Counts, Refusal>
        ensures { (room : Room) (n : Counts) → result ≡ count_field room n CountsTag body.now }
    {
        let [d1, d0, e1, e0, s1, s0] = body else {
            return Err(Refusal::WrongLength);
        };
        let difference_variables = usize::from(u16::from_be_bytes([*d1, *d0]));
        let equality_variables = usize::from(u16::from_be_bytes([*e1, *e0]));
        let switches = usize::from(u16::from_be_bytes([*s1, *s0]));
        if difference_variables + equality_variables + switches > MOST {
            return Err(Refusal::TooMany);
        }
        Ok(Counts {
            difference_variables,
            equality_variables,
            switches,
            ..Counts::default()
        })
    }

    // How many entries a table has with one more, over so many variables and with so many places.
    fn one_more<E: FieldEntry>(
        &self,
        body: &[u8],
        variables: usize,
        entries: usize,
        places: usize,
    ) -> Result<usize, Refusal>
        ensures { result ≡ map_ok (λ _. entries + 1) (cond (nat_eq (length body.now) E.BODY_LEN) (cond (atoms_fit self.now && nat_lt entries places) (E.checked variables (E.said body.now)) (Err TooMany)) (Err WrongLength)) }
    {
        let entry = E::from_body(body)?;
        if !self.atoms_fit() || entries >= places {
            return Err(Refusal::TooMany);
        }
        entry.check(variables)?;
        Ok(entries + 1)
    }

    // These counts with one field more. There are four kinds of fields, so a match chooses.
    fn with_field(self, tag: Tag, body: &[u8], room: Room) -> Result<Counts, Refusal>
        requires { self.clauses + 1 < 2 ^ 64 }
        ensures { result ≡ count_field room self tag body.now }
    {
        match tag {
            Tag::Counts => Counts::from_body(body),
            Tag::Difference => {
                let difference_entries = self.one_more::<DifferenceEntry>(
                    body,
                    self.difference_variables,
                    self.difference_entries,
                    room.differences,
                )?;
                Ok(Counts {
                    difference_entries,
                    ..self
                })
            }
            Tag::Equality => {
                let equality_entries = self.one_more::<EqualityEntry>(
                    body,
                    self.equality_variables,
                    self.equality_entries,
                    room.equalities,
                )?;
                Ok(Counts {
                    equality_entries,
                    ..self
                })
            }
            Tag::Clause if body.len() % 2 == 0 => Ok(Counts {
                clauses: self.clauses + 1,
                ..self
            }),
            Tag::Clause => Err(Refusal::WrongLength),
        }
    }
}

impl Progress {
    // One field more.
    fn read(self, field: Field<'_>, room: Room) -> Result<Progress, Refusal>
        requires { self.counts.clauses + 1 < 2 ^ 64 }
        ensures { result ≡ count_more room self field.entry.tag field.entry.body.now }
    {
        let tag = Tag::in_turn(field.tag, self.before)?;
        let counts = self.counts.with_field(tag, field.body, room)?;
        Ok(Progress {
            before: Some(tag),
            counts,
        })
    }
}

// Checks every field of a file, and counts what it holds.
pub fn check(file: &[u8], room: Room) -> Result<Counts, Fault>
    ensures { result ≡ map_ok counts_of (checked room file.now) }
{
    let mut reader = Reader::new(file);
    let mut progress = Progress::default();
    while let Some(field) = reader.next_field()? {
        progress = located(progress.read(field, room), field.offset)?;
    }
    Ok(progress.counts)
}

// The six counts, in the order of the fields, with blanks between.
impl fmt::Display for Counts {
    ghost output = { λ c. Some (decimal c.difference_variables ++ (codes " " ++ (decimal c.equality_variables ++ (codes " " ++ (decimal c.switches ++ (codes " " ++ (decimal c.difference_entries ++ (codes " " ++ (decimal c.equality_entries ++ (codes " " ++ decimal c.clauses)))))))))) };

    fn fmt<W: fmt::Write>(&self, f: &mut fmt::Formatter<W>) -> fmt::Result {
        let Counts {
            difference_variables,
            equality_variables,
            switches,
            difference_entries,
            equality_entries,
            clauses,
        } = *self;
        write!(
            f,
            "{difference_variables} {equality_variables} {switches} {difference_entries} {equality_entries} {clauses}"
        )
    }
}
