// The fields of a file: one tag byte, two length bytes, high byte first, and a body.
ghost use Rattle.std.specs.Prelude.{◌≡◌, ◌+◌, ◌≤◌, length, drop};
ghost use Rattle.question_file.specs.Fields.{Begins, size};

use refusals::{Fault, Refusal};

// The bytes of a field before its body.
pub(crate) const HEAD: usize = 3;

// A field, as a part of the file.
#[derive(Clone, Copy)]
pub struct Field<'a> {
    pub tag: u8,
    // where in the file its tag stands
    pub offset: usize,
    pub body: &'a [u8],
}

// Goes through a file field by field.
#[derive(Drop)]
pub struct Reader<'a> {
    file: &'a [u8],
    // where the next field would begin, which faults tell; so the file stays whole
    offset: usize,
    ghost within: { offset ≤ length file.now },
}

impl<'a> Reader<'a> {
    pub fn new(file: &'a [u8]) -> Self
        ensures file { result.file.now ≡ file.now }
        ensures offset { result.offset ≡ 0 }
    {
        Reader { file, offset: 0 }
    }

    // The next field, or nothing at the end of the file. It may fail, so it is a method for `?` and no iterator.
    pub fn next_field(&mut self) -> Result<Option<Field<'a>>, Fault>
        ensures same { self.new.file ≡ self.old.file }
        ensures found { Begins (drop self.old.offset self.old.file.now) self.old.offset result }
        ensures moves { self.new.offset ≡ self.old.offset + size result }
    {
        let found = first_field(&self.file[self.offset..], self.offset)?;
        if let Some(field) = found {
            self.offset += HEAD + field.body.len();
        }
        Ok(found)
    }
}

// The field with which `rest` begins, where `rest` is a file from `offset` on.
fn first_field<'a>(rest: &'a [u8], offset: usize) -> Result<Option<Field<'a>>, Fault>
    ensures { Begins rest.now offset result }
{
    match rest {
        [tag, high, low, remainder @ ..] => {
            let length = usize::from(u16::from_be_bytes([*high, *low]));
            if length > remainder.len() {
                return Err(Refusal::Torn.at(offset));
            }
            let (body, _) = remainder.split_at(length);
            Ok(Some(Field {
                tag: *tag,
                offset,
                body,
            }))
        }
        [] if offset > 0 => Ok(None),
        _ => Err(Refusal::Torn.at(offset)),
    }
}
