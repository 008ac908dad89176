// What a call is told, and the bytes that come beside it: a response with its handle, or how the stream broke with its detail's value.
ghost use Rattle.std.specs.Prelude.{◌+◌, ◌≤◌, length, IfSome};

use crate::fields::take;
use bidi_write::{Break, Detail, Generation, Offset, Resource, Response, Status, WriteStatus};

pub fn response<'a>(input: &mut &'a [u8]) -> Option<(Response, &'a [u8])>
    ensures no_more { length input.new.now ≤ length input.old.now }
    ensures holds { IfSome result (λ r. length r.1.now + length input.new.now ≤ length input.old.now) }
{
    let write_status = write_status(input)?;
    let handle = take::<Option<&'a [u8]>>(input)?;
    let response = Response {
        write_status,
        has_write_handle: handle.is_some(),
    };
    Some((response, handle.unwrap_or(&[])))
}

// What a response states, if it states something.
fn write_status(input: &mut &[u8]) -> Option<Option<WriteStatus>>
    ensures { length input.new.now ≤ length input.old.now }
{
    match take::<u8>(input)? {
        0 => Some(None),
        1 => {
            let size = take(input).map(Offset)?;
            Some(Some(WriteStatus::PersistedSize(size)))
        }
        2 => resource(input, false).map(Some),
        3 => resource(input, true).map(Some),
        _ => None,
    }
}

fn resource(input: &mut &[u8], finalized: bool) -> Option<WriteStatus>
    ensures { length input.new.now ≤ length input.old.now }
{
    Some(WriteStatus::Resource(Resource {
        size: take(input).map(Offset)?,
        generation: take(input).map(Generation)?,
        finalized,
    }))
}

pub fn stream_break<'a>(input: &mut &'a [u8]) -> Option<(Break, &'a [u8])>
    ensures no_more { length input.new.now ≤ length input.old.now }
    ensures holds { IfSome result (λ b. length b.1.now + length input.new.now ≤ length input.old.now) }
{
    match take::<u8>(input)? {
        0 => Some((Break::EndOfStream, &[])),
        1 => status(input),
        2 => Some((Break::Error, &[])),
        _ => None,
    }
}

fn status<'a>(input: &mut &'a [u8]) -> Option<(Break, &'a [u8])>
    ensures no_more { length input.new.now ≤ length input.old.now }
    ensures holds { IfSome result (λ b. length b.1.now + length input.new.now ≤ length input.old.now) }
{
    let code = take(input)?;
    match take::<Option<&'a [u8]>>(input)? {
        Some(value) => Some((stated(code, Detail::Redirect), value)),
        None => Some((stated(code, Detail::Absent), &[])),
    }
}

fn stated(code: u32, detail: Detail) -> Break {
    Break::Status(Status { code, detail })
}
