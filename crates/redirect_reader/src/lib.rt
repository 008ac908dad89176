// Reads a redirect from the caller's bytes, in place: an answer holds places of the slice, no bytes.
#![tactic(auto)]

ghost use Rattle.std.specs.Prelude.{◌≡◌, ◌+◌, ◌<◌, ◌^◌, length, Some};
ghost use Rattle.protobuf_format.specs.Message.{put};
ghost use Rattle.protobuf_fields.specs.Found.{bytes_in, field_in};
ghost use Rattle.redirect_format.specs.Redirect.{set_token, set_handle, redirect_rows, read_redirect};
ghost use Rattle.redirect_reader.specs.Places.{PartFits, seen_in, SeenFits, Answers};
ghost use Rattle.redirect_reader.specs.Fields.{int_of, bytes_of, Handles, Holds, Nests, ValueFits};

use protobuf_fields::{Field, Malformed, Part, Value};
use protobuf_reader::step_at;
use utf8::is_utf8;

// Fields of the redirect.
const TOKEN: u64 = 1;

const HANDLE: u64 = 2;

const GENERATION: u64 = 3;

// The one field of the handle.
const HANDLE_BYTES: u64 = 1;

// Where a redirect's token and handle lie, and its generation as 64 bits.
#[derive(Clone, Copy)]
pub struct Seen {
    pub token: Option<Part>,
    pub handle: Option<Part>,
    pub generation: Option<u64>,
}

// A known field's value: another wire type than its own is malformed.
fn int_of(v: Value) -> Result<u64, Malformed>
    ensures { result ≡ int_of v }
{
    match v {
        Value::Int(n) => Ok(n),
        _ => Err(Malformed),
    }
}

fn bytes_of(v: Value) -> Result<Part, Malformed>
    ensures { result ≡ bytes_of v }
{
    match v {
        Value::Bytes(part) => Ok(part),
        _ => Err(Malformed),
    }
}

// A field of the handle, behind the bytes that were read before it.
#[tactic(auto, using(crate::proofs::Handles::skipped, crate::proofs::Handles::taken))]
fn hold(p: Option<Part>, field: Field) -> Result<Option<Part>, Malformed>
    ensures { Holds result p field }
{
    if field.number == HANDLE_BYTES {
        Ok(Some(bytes_of(field.value)?))
    } else {
        Ok(p)
    }
}

// The bytes of the handle that the slice is, whatever was there before; none where it lacks its field.
#[tactic(auto, using(crate::proofs::Handles::holding_start, crate::proofs::Handles::holding_end, crate::proofs::Handles::holding_on, crate::proofs::Merges::field_less))]
fn read_handle(s: &[u8]) -> Result<Option<Part>, Malformed>
    ensures { Handles result s.now }
{
    let mut p = None;
    let mut at = 0;
    while let Some(field) = step_at(s, at)? {
        p = hold(p, field)?;
        at = field.next;
    }
    Ok(p)
}

// The handle behind a message, whose own bytes are p: those, or else the ones before it, or else no bytes.
#[tactic(auto, using(crate::proofs::Handles::nested_own, crate::proofs::Handles::nested_old, crate::proofs::Handles::nested_none))]
fn nested(p: Option<Part>, old: Option<Part>, message: Part) -> Option<Part>
    requires { PartFits p message.len × (message.start + message.len < 2 ^ 64) }
    ensures { Nests result p old message }
{
    match (p, old) {
        (Some(p), _) => Some(Part {
            start: message.start + p.start,
            len: p.len,
        }),
        (None, Some(_)) => old,
        (None, None) => Some(Part { start: 0, len: 0 }),
    }
}

// The token, which is UTF-8.
#[tactic(auto, using(crate::proofs::Redirects::token_put, crate::proofs::Redirects::token_refused))]
fn put_token(s: &[u8], m: Seen, part: Part) -> Result<Seen, Malformed>
    requires { PartFits (Some part) (length s.now) × SeenFits m (length s.now) }
    ensures { Answers result s.now (set_token (bytes_in s.now part) (seen_in s.now m)) }
{
    if !is_utf8(part.of(s)) {
        return Err(Malformed);
    }
    Ok(Seen {
        token: Some(part),
        ..m
    })
}

// The handle, merged into the one before it.
#[tactic(auto, using(crate::proofs::Redirects::handle_fits, crate::proofs::Redirects::handle_put))]
fn put_handle(s: &[u8], m: Seen, part: Part) -> Result<Seen, Malformed>
    requires { PartFits (Some part) (length s.now) × SeenFits m (length s.now) }
    ensures { Answers result s.now (set_handle (bytes_in s.now part) (seen_in s.now m)) }
{
    let p = read_handle(part.of(s))?;
    let handle = nested(p, m.handle, part);
    Ok(Seen { handle, ..m })
}

// A field, by its number and wire type.
#[tactic(auto, using(crate::proofs::Redirects::token_field, crate::proofs::Redirects::handle_field, crate::proofs::Redirects::generation_field, crate::proofs::Redirects::other_field))]
fn put_field(s: &[u8], m: Seen, field: Field) -> Result<Seen, Malformed>
    requires { ValueFits field.value (length s.now) × SeenFits m (length s.now) }
    ensures { Answers result s.now (put redirect_rows (field_in field s.now) (seen_in s.now m)) }
{
    match field.number {
        TOKEN => put_token(s, m, bytes_of(field.value)?),
        HANDLE => put_handle(s, m, bytes_of(field.value)?),
        GENERATION => Ok(Seen {
            generation: Some(int_of(field.value)?),
            ..m
        }),
        _ => Ok(m),
    }
}

// The redirect that the bytes are, whatever they are.
#[tactic(auto, using(crate::proofs::Redirects::going_start, crate::proofs::Redirects::going_end, crate::proofs::Redirects::going_on, crate::proofs::Merges::found_fits, crate::proofs::Merges::field_less))]
pub fn read_redirect(s: &[u8]) -> Result<Seen, Malformed>
    ensures { Answers result s.now (read_redirect s.now) }
{
    let mut m = Seen {
        token: None,
        handle: None,
        generation: None,
    };
    let mut at = 0;
    while let Some(field) = step_at(s, at)? {
        m = put_field(s, m, field)?;
        at = field.next;
    }
    Ok(m)
}
