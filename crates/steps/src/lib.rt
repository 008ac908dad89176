// Any call of a session: the rules' `step`, made by the host's calls, so that what a program runs is what a host links.
#![tactic(auto)]

ghost use Rattle.std.specs.Prelude.{length};
ghost use Rattle.bidi_write.specs.View.{call_of};
ghost use Rattle.transport.specs.Promise.{Promise};
ghost use Rattle.session.specs.Lent.{outcome};

use bidi_write::{Call, Refusal};
use transport::{Answer, Session};

// The bytes are an append's data, a response's or handshake's handle, or the value of a break's detail. Where a call brings none they are not read.
pub fn step(
    s: &mut Session,
    call: Call,
    store: &mut [u8],
    table: &mut [u64],
    out: &mut [u8],
    bytes: &[u8],
) -> Result<Answer, Refusal>
    ensures { Promise (call_of call bytes.now (length out.old)) s.old store.old table.old out.old (outcome s.new result) store.new table.new out.new }
{
    match call {
        Call::Append => session::append(s, store, table, out, bytes),
        Call::Flush => session::flush(s, store, table, out),
        Call::Finalise => session::finalise(s, store, table, out),
        Call::NextRequest => session::next_request(s, store, table, out),
        Call::Close => session::close(s),
        Call::SendFailed => session::send_failed(s),
        Call::Response(m) => session::response(s, store, table, m, bytes),
        Call::Handshake(m) => session::handshake(s, store, table, m, bytes),
        Call::Break(b) => session::stream_break(s, b, bytes),
        Call::Judge(v) => session::judge(s, v),
        Call::FailedAttempt(b, v) => session::failed_attempt(s, b, bytes, v),
    }
}
