// The records of docs/TRACE.md.
#![tactic(auto)]

pub mod fields;
pub mod input;
mod message;
pub mod opening;

ghost use Rattle.std.specs.Prelude.{◌≡◌, ◌+◌, ◌≤◌, length, IfSome};
ghost use Rattle.trace_records.specs.Record.{brings, Taken};

use bidi_write::{Call, Response};
use fields::take;
use opening::Opens;

// What a record asks for. Of the bytes that it brings, its last, it says how many; `Input::brought` gives them.
#[derive(Clone, Copy)]
pub enum Record {
    // how many bytes its fields have; they are read where it is played, so that no other record is as large as an opening
    Opening(usize),
    // a call, and how many bytes come beside it
    Call(Call, usize),
    // the last request's bytes, into a buffer of the first length, with as much of out lent as the second
    Write(usize, usize),
    // the end of a script
    End,
}

// The record that the input begins with; none where it is cut or not known.
pub fn read(input: &mut &[u8]) -> Option<Record>
    ensures no_more { length input.new.now ≤ length input.old.now }
    ensures marked { IfSome result (λ r. 2 + brings r + length input.new.now ≤ length input.old.now) }
{
    match &take::<[u8; 2]>(input)? {
        b"OP" => open(input),
        b"AP" => Some(Record::Call(Call::Append, take::<&[u8]>(input)?.len())),
        b"FL" => Some(bare(Call::Flush)),
        b"FI" => Some(bare(Call::Finalise)),
        b"CL" => Some(bare(Call::Close)),
        b"NX" => Some(bare(Call::NextRequest)),
        b"SF" => Some(bare(Call::SendFailed)),
        b"RS" => with_response(input, Call::Response),
        b"HS" => with_response(input, Call::Handshake),
        b"BR" => stream_break(input),
        b"VE" => Some(bare(Call::Judge(take(input)?))),
        b"FA" => failed_attempt(input),
        b"WB" => write(input),
        b"EN" => Some(Record::End),
        _ => None,
    }
}

fn open(input: &mut &[u8]) -> Option<Record>
    ensures { Taken result (length input.old.now) (length input.new.now) }
{
    let before = input.len();
    take::<Opens<'_>>(input)?;
    Some(Record::Opening(before - input.len()))
}

// A call that brings no bytes.
fn bare(call: Call) -> Record
    ensures { brings result ≡ 0 }
{
    Record::Call(call, 0)
}

// Each record with much to hold has a function of its own: a function makes room for all that it may hold, and `read` would make it for every record.

// A response or a handshake.
fn with_response<F: Fn(Response) -> Call>(input: &mut &[u8], call: F) -> Option<Record>
    requires { F.IsAlwaysCallable call }
    ensures { Taken result (length input.old.now) (length input.new.now) }
{
    let (response, handle) = message::response(input)?;
    Some(Record::Call(call(response), handle.len()))
}

fn stream_break(input: &mut &[u8]) -> Option<Record>
    ensures { Taken result (length input.old.now) (length input.new.now) }
{
    let (how, detail) = message::stream_break(input)?;
    Some(Record::Call(Call::Break(how), detail.len()))
}

fn failed_attempt(input: &mut &[u8]) -> Option<Record>
    ensures { Taken result (length input.old.now) (length input.new.now) }
{
    let verdict = take(input)?;
    let (how, detail) = message::stream_break(input)?;
    Some(Record::Call(Call::FailedAttempt(how, verdict), detail.len()))
}

fn write(input: &mut &[u8]) -> Option<Record>
    ensures { Taken result (length input.old.now) (length input.new.now) }
{
    let buffer = take::<u16>(input)?;
    let data = take::<u16>(input)?;
    Some(Record::Write(buffer as usize, data as usize))
}
