// The records of the bench program as calls of a session.
#![tactic(auto)]

ghost use Rattle.std.specs.Prelude.{◌≡◌, true, false, [], ℕ, ◌≤◌, length};
ghost use Rattle.rules.specs.Bench as bench;
ghost use Rattle.rules.specs.Message.{Bytes};
ghost use Rattle.bidi_write.specs.View as view;
ghost use Rattle.bidi_write.specs.View.{response_of};
ghost use Rattle.transport.specs.View.{answer_of, sent_length};
ghost use Rattle.text.specs.Line.{text_of};
ghost use Rattle.session.specs.Lent.{outcome};
ghost use Rattle.bench_lines.specs.Text.{mark_of};
ghost use Rattle.bench_turns.specs.Turn.{Opens, call_of, Makes, by, Continues, line_for};

use bench_lines::Mark;
use bench_records::CallRecord;
use bidi_write::{Break, Call, Generation, Offset, Refusal, Response, WriteStatus};
use openings::{Opened, Opening};
use text::Line;
use transport::{Answer, Session};

// "Bucket `projects/_/buckets/b`, object `o`, last size 0": a new object, in the Write form.
pub fn open(limit: usize, capacity: usize, p: Offset, store: &mut [u8], table: &mut [u64]) -> Opened
    ensures { Opens limit capacity p.0 store.old table.old result store.new table.new }
{
    let o = Opening {
        limit,
        capacity: Some(capacity),
        append: false,
        generation: Generation(0),
        has_write_handle: false,
        has_routing_token: false,
        if_metageneration_match: None,
        if_metageneration_not_match: None,
        response: sized(p),
        checksum: None,
        has_payload: false,
        last_persisted_size: Offset(0),
    };
    session::open(
        o,
        store,
        table,
        b"projects/_/buckets/b",
        b"o",
        b"",
        b"",
        b"",
        b"",
    )
}

// "Responses hold a size alone."
fn sized(n: Offset) -> Response
    ensures { (handle : Bytes) → response_of result handle ≡ bench.sized n.0 }
{
    Response {
        write_status: Some(WriteStatus::PersistedSize(n)),
        has_write_handle: false,
    }
}

// Makes a record's call; data is an append's.
pub fn call(
    s: &mut Session,
    c: CallRecord,
    data: &[u8],
    store: &mut [u8],
    table: &mut [u64],
    out: &mut [u8],
) -> Result<Answer, Refusal>
    ensures { Makes c «data».now s.old store.old table.old out.old (outcome s.new result) store.new table.new out.new }
{
    steps::step(s, call_of(c), store, table, out, data)
}

fn call_of(c: CallRecord) -> Call
    ensures { (bytes : Bytes) (out : ℕ) → view.call_of result bytes out ≡ call_of c bytes out }
{
    match c {
        CallRecord::Append => Call::Append,
        CallRecord::Flush => Call::Flush,
        CallRecord::Finalise => Call::Finalise,
        CallRecord::Close => Call::Close,
        CallRecord::Response(n) => Call::Response(sized(n)),
        CallRecord::Handshake(n) => Call::Handshake(sized(n)),
        CallRecord::Break => Call::Break(Break::EndOfStream),
        CallRecord::Verdict(v) => Call::Judge(v),
        CallRecord::Next => Call::NextRequest,
    }
}

// "AP, FL and FI are called once, then again till done or refused": from which of its bytes on a call is made again.
pub fn again(c: CallRecord, a: Result<Answer, Refusal>, data: &[u8]) -> Option<usize>
    ensures { Continues c «data».now a result }
{
    match (c, a) {
        (CallRecord::Append, Ok(Answer::Took(n, _))) if n < data.len() => Some(n),
        (CallRecord::Flush | CallRecord::Finalise, Ok(Answer::Sends(_))) => Some(0),
        _ => None,
    }
}

// The line that a record's call prints.
pub fn line(c: CallRecord, a: Result<Answer, Refusal>) -> Line
    ensures { (out : Bytes) → sent_length a ≤ length out → text_of result ≡ line_for c a out }
{
    bench_lines::line(mark(c), a)
}

fn mark(c: CallRecord) -> Mark
    ensures { result ≡ mark_of (call_of c [] 0) }
{
    match c {
        CallRecord::Append => Mark::Append,
        CallRecord::Flush => Mark::Flush,
        CallRecord::Finalise => Mark::Finalise,
        CallRecord::Close => Mark::Close,
        CallRecord::Response(_) => Mark::Response,
        CallRecord::Handshake(_) => Mark::Handshake,
        CallRecord::Break => Mark::Break,
        CallRecord::Verdict(_) => Mark::Verdict,
        CallRecord::Next => Mark::Next,
    }
}
