// A reader over the caller's bytes that steps from field to field. Another crate's code calls `step_at`, whose parameters are plain.
#![tactic(auto)]

ghost use Rattle.std.specs.Prelude.{◌≡◌};
ghost use Rattle.protobuf_reader.specs.Steps.{Steps, behind_of, place_in, Moves};

use protobuf_fields::{Field, Malformed, get_field};

#[derive(Clone, Copy)]
pub struct Reader<'a> {
    pub bytes: &'a [u8],
    pub at: usize,
}

impl<'a> Reader<'a> {
    // A reader at a place.
    pub fn seek(bytes: &'a [u8], at: usize) -> Reader<'a>
        ensures { (result.bytes ≡ bytes.entry) × (result.at ≡ at) }
    {
        Reader { bytes, at }
    }

    // The field at the reader's place, or none where the bytes end there.
    #[tactic(auto, using(crate::proofs::Answers::end_made, crate::proofs::Answers::field_made))]
    pub fn next(self) -> Result<Option<Field>, Malformed>
        ensures { Steps result self.entry.bytes.now self.entry.at }
    {
        if self.bytes.len() <= self.at {
            return Ok(None);
        }
        Ok(Some(get_field(self.bytes, self.at)?))
    }

    // The reader behind a step that `next` answered: the field is not read again.
    #[tactic(auto, using(crate::proofs::Answers::moves))]
    pub fn on(self, step: Result<Option<Field>, Malformed>) -> Reader<'a>
        ensures { (result.bytes ≡ self.entry.bytes) × Moves step self.entry.bytes.now self.entry.at result.at }
    {
        match step {
            Ok(Some(field)) => Reader {
                at: field.next,
                ..self
            },
            _ => self,
        }
    }
}

// The field at a place, which says the place behind it: where the bytes end or the field is malformed, that is the same place.
#[tactic(auto, using(crate::proofs::Answers::place_had))]
pub fn step_at(s: &[u8], at: usize) -> Result<Option<Field>, Malformed>
    ensures { Steps result s.now at × (place_in result at ≡ behind_of s.now at) }
{
    Reader::seek(s, at).next()
}
