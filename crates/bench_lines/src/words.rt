// What a line says.
ghost use Rattle.std.specs.Prelude.{◌≡◌, [], ◌∷◌, ◌++◌, ◌≤◌, length};
ghost use Rattle.rules.specs.Message.{Bytes};
ghost use Rattle.bidi_write.specs.View.{length_of, request_of};
ghost use Rattle.bidi_write.specs.Refusal.{number_of};
ghost use Rattle.transport.specs.View.{maybe_of, answer_of, maybe_length, sent_length};
ghost use Rattle.text.specs.Ascii.{ascii};
ghost use Rattle.text.specs.Decimal.{number};
ghost use Rattle.bench_lines.specs.Text.{form_of};
ghost use Rattle.bench_lines.specs.Text as T;
ghost use Rattle.text.specs.Line.{text_of, Adds};

use crate::Mark;
use bidi_write::{ChecksummedData, Refusal, Request};
use text::Line;
use transport::Answer;

// The mark, and a space.
pub fn begun(mark: Mark) -> Line
    ensures { text_of result ≡ (form_of mark).name ++ ascii " " }
{
    Line::new().text(name(mark)).byte(b' ')
}

fn name(mark: Mark) -> &'static [u8]
    ensures { result.now ≡ (form_of mark).name }
{
    match mark {
        Mark::Open => b"OP",
        Mark::Append => b"AP",
        Mark::Flush => b"FL",
        Mark::Finalise => b"FI",
        Mark::Close => b"CL",
        Mark::Response => b"RS",
        Mark::Handshake => b"HS",
        Mark::Break => b"BR",
        Mark::Verdict => b"VE",
        Mark::Next => b"NX",
        Mark::SendFailed => b"SF",
        Mark::FailedAttempt => b"FA",
    }
}

// What an answer says, behind the mark.
pub fn says(line: Line, mark: Mark, answer: Result<Answer, Refusal>) -> Line
    ensures { (out : Bytes) → sent_length answer ≤ length out → Adds line (T.says (form_of mark) (answer_of answer out)) result }
{
    match answer {
        Err(x) => refused(line, x),
        Ok(Answer::Took(n, r)) => counted(line, mark, n, r),
        Ok(Answer::Sends(r)) => request(line, r),
        Ok(Answer::Waits(r, n)) => waits(line, r, n),
        Ok(Answer::Completes(c)) => counted(line, mark, c.waiters, c.request),
        Ok(Answer::Attempt(n)) => line.number(n as u64),
        Ok(Answer::Accepted) => line.text(okay(mark)),
        Ok(Answer::Done) => line.text(b"done"),
        Ok(Answer::Ends(_)) => line.text(b"end"),
    }
}

fn refused(line: Line, x: Refusal) -> Line
    ensures { Adds line (ascii "E" ++ number (number_of x)) result }
{
    line.byte(b'E').number(bidi_write::refusal_number(x))
}

// A request, and the number of the waiter made.
fn waits(line: Line, r: Request, n: u64) -> Line
    ensures { (out : Bytes) → length_of r.«data» ≤ length out → Adds line (T.request (request_of r out) ++ ascii " w" ++ number n) result }
{
    request(line, r).text(b" w").number(n)
}

// How a call that is accepted, with no more to say, prints.
fn okay(mark: Mark) -> &'static [u8]
    ensures { result.now ≡ (form_of mark).okay }
{
    match mark {
        Mark::Verdict | Mark::FailedAttempt => b"go",
        _ => b"ok",
    }
}

// A number, and the request that the call may hand out.
fn counted(line: Line, mark: Mark, n: usize, r: Option<Request>) -> Line
    ensures { (out : Bytes) → maybe_length r ≤ length out → Adds line (T.counted (form_of mark).hands n (maybe_of r out)) result }
{
    let count = line.number(n as u64);
    if hands(mark) {
        or_dash(count.byte(b' '), r)
    } else {
        count
    }
}

// A handshake hands out no request.
fn hands(mark: Mark) -> bool
    ensures { result ≡ (form_of mark).hands }
{
    !matches!(mark, Mark::Handshake)
}

fn or_dash(line: Line, r: Option<Request>) -> Line
    ensures { (out : Bytes) → maybe_length r ≤ length out → Adds line (T.or_dash (maybe_of r out)) result }
{
    match r {
        None => line.byte(b'-'),
        Some(x) => request(line, x),
    }
}

// Offset, length, flags.
fn request(line: Line, r: Request) -> Line
    ensures { (out : Bytes) → length_of r.«data» ≤ length out → Adds line (T.request (request_of r out)) result }
{
    let sized = line
        .signed(r.write_offset.0)
        .byte(b':')
        .number(data_length(r.data) as u64)
        .byte(b':');
    flags(sized, r.flush, r.state_lookup, r.finish_write)
}

fn data_length(data: Option<ChecksummedData>) -> usize
    ensures { result ≡ length_of «data» }
{
    data.map_or(0, |d| d.length)
}

fn flags(line: Line, flush: bool, lookup: bool, finish: bool) -> Line
    ensures { Adds line (T.flags flush lookup finish) result }
{
    if flush || lookup || finish {
        flag(flag(flag(line, flush, b'f'), lookup, b's'), finish, b'w')
    } else {
        line.byte(b'-')
    }
}

fn flag(line: Line, is: bool, letter: u8) -> Line
    ensures { Adds line (T.flag is (letter ∷ [])) result }
{
    if is { line.byte(letter) } else { line }
}
