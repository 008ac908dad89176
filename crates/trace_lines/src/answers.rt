// What a call answered, and every field of its request.
ghost use Rattle.std.specs.Prelude.{◌≤◌, length};
ghost use Rattle.bidi_write.specs.View.{length_of};
ghost use Rattle.transport.specs.View.{maybe_length, sent_length};

use bench_lines::Mark;
use bidi_write::{Call, ChecksummedData, Refusal, Request};
use trace_text::{flag_field, hexes, line, number_field, signed_field, text};
use transport::{Answer, Ending};

// The line that the bench program prints, and behind it the bytes of the payload that an accepted opening released.
pub fn opening(out: &mut [u8], n: usize, a: Result<(), Refusal>, released: usize) -> usize {
    let n = line(out, n, bench_lines::opening_line(a));
    match a {
        Err(_) => n,
        Ok(()) => release(out, n, released),
    }
}

// The line that the bench program prints, and behind it that of the bytes released, the request's and the end's. The request's data fill the front of `room`.
pub fn answer(
    out: &mut [u8],
    n: usize,
    call: Call,
    a: Result<Answer, Refusal>,
    room: &[u8],
) -> usize
    requires { sent_length a ≤ length room.now }
{
    let n = line(out, n, bench_lines::line(mark(call), a));
    let n = released(out, n, call, a);
    let n = maybe_fields(out, n, shown::handed(a), room);
    match a {
        Ok(Answer::Ends(e)) => ended(out, n, e),
        _ => n,
    }
}

fn mark(call: Call) -> Mark {
    match call {
        Call::Append => Mark::Append,
        Call::Flush => Mark::Flush,
        Call::Finalise => Mark::Finalise,
        Call::NextRequest => Mark::Next,
        Call::Close => Mark::Close,
        Call::SendFailed => Mark::SendFailed,
        Call::Response(_) => Mark::Response,
        Call::Handshake(_) => Mark::Handshake,
        Call::Break(_) => Mark::Break,
        Call::Judge(_) => Mark::Verdict,
        Call::FailedAttempt(_, _) => Mark::FailedAttempt,
    }
}

// An accepted response or handshake tells it, one that ends the session too.
fn released(out: &mut [u8], n: usize, call: Call, a: Result<Answer, Refusal>) -> usize {
    match (call, a) {
        (_, Err(_)) => n,
        (Call::Response(_) | Call::Handshake(_), _) => release(out, n, shown::released(a)),
        _ => n,
    }
}

fn release(out: &mut [u8], n: usize, bytes: usize) -> usize {
    let n = number_field(out, n, b"  rl ", bytes as u64);
    text(out, n, b"\n")
}

fn ended(out: &mut [u8], n: usize, e: Ending) -> usize {
    let n = number_field(out, n, b"  en completed=", e.completed as u64);
    let n = number_field(out, n, b" failed=", e.failed as u64);
    text(out, n, b"\n")
}

fn maybe_fields(out: &mut [u8], n: usize, r: Option<Request>, room: &[u8]) -> usize
    requires { maybe_length r ≤ length room.now }
{
    match r {
        None => n,
        Some(x) => fields(out, n, x, room),
    }
}

fn fields(out: &mut [u8], n: usize, r: Request, room: &[u8]) -> usize
    requires { length_of r.«data» ≤ length room.now }
{
    let n = signed_field(out, n, b"  rq off=", r.write_offset.0);
    let n = data(out, n, r.data, room);
    let n = flag_field(out, n, b" f=", r.flush);
    let n = flag_field(out, n, b" s=", r.state_lookup);
    let n = flag_field(out, n, b" w=", r.finish_write);
    let n = checksum(out, n, b" sum=", r.object_checksums);
    text(out, n, b"\n")
}

fn data(out: &mut [u8], n: usize, d: Option<ChecksummedData>, room: &[u8]) -> usize
    requires { length_of d ≤ length room.now }
{
    match d {
        None => text(out, n, b" data=none"),
        Some(c) => {
            let n = text(out, n, b" data=");
            let n = hexes(out, n, &room[..c.length]);
            let n = text(out, n, b"/");
            trace_text::sum(out, n, c.crc32c)
        }
    }
}

pub fn checksum(out: &mut [u8], n: usize, name: &[u8], c: Option<u32>) -> usize {
    match c {
        None => {
            let n = text(out, n, name);
            text(out, n, b"none")
        }
        Some(x) => trace_text::sum_field(out, n, name, x),
    }
}
