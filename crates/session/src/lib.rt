// Ported from google-cloud-storage 1.21.0, src/storage/bidi_write/transport.rs, Copyright 2026 Google LLC (Apache-2.0); changed: no tasks, channels or heap.
// The host's calls: each is lent the session record, makes the core's call and stores what it left ("the host's outer calls are lent the session
// record and update it"). A refused call leaves the record as it was, whatever it holds.
// One function each, alike as they are: what a call is lent differs.
#![tactic(auto)]

ghost use Rattle.std.specs.Prelude.{length};
ghost use Rattle.rules.specs.Session as R;
ghost use Rattle.bidi_write.specs.View.{response_of, break_of};
ghost use Rattle.openings.specs.Opening.{beside, Opens};
ghost use Rattle.transport.specs.Promise.{Promise, Promised, PromisedAt};
ghost use Rattle.shown.specs.Shown.{Shown, Dials};
ghost use Rattle.session.specs.Lent.{outcome};

use bidi_write::{Break, Refusal, Response};
use openings::{Opened, Opening};
use shown::{View, spec_of, view_of};
use state::AppendObjectSpec;
use transport::{Answer, Session};

// Opening gives the record; later calls are lent it.
pub fn open(
    o: Opening,
    store: &mut [u8],
    table: &mut [u64],
    bucket: &[u8],
    object: &[u8],
    write_handle: &[u8],
    routing_token: &[u8],
    response_handle: &[u8],
    payload: &[u8],
) -> Opened
    ensures { Opens o (beside bucket.now object.now write_handle.now routing_token.now response_handle.now payload.now) store.old table.old result store.new table.new }
{
    openings::open(
        o,
        store,
        table,
        bucket,
        object,
        write_handle,
        routing_token,
        response_handle,
        payload,
    )
}

pub fn append(
    s: &mut Session,
    store: &mut [u8],
    table: &mut [u64],
    out: &mut [u8],
    data: &[u8],
) -> Result<Answer, Refusal>
    ensures { Promise (R.append «data».now (length out.old)) s.old store.old table.old out.old (outcome s.new result) store.new table.new out.new }
{
    let r = appends::append(*s, store, table, out, data)?;
    *s = r.session;
    Ok(r.answer)
}

pub fn flush(
    s: &mut Session,
    store: &[u8],
    table: &mut [u64],
    out: &mut [u8],
) -> Result<Answer, Refusal>
    ensures { Promise (R.flush (length out.old)) s.old store.now table.old out.old (outcome s.new result) store.now table.new out.new }
{
    let r = flushes::flush(*s, store, table, out)?;
    *s = r.session;
    Ok(r.answer)
}

pub fn finalise(
    s: &mut Session,
    store: &[u8],
    table: &mut [u64],
    out: &mut [u8],
) -> Result<Answer, Refusal>
    ensures { Promise (R.finalise (length out.old)) s.old store.now table.old out.old (outcome s.new result) store.now table.new out.new }
{
    let r = flushes::finalise(*s, store, table, out)?;
    *s = r.session;
    Ok(r.answer)
}

pub fn close(s: &mut Session) -> Result<Answer, Refusal>
    ensures { Promised R.close s.old (outcome s.new result) }
{
    let r = transport::close::close(*s)?;
    *s = r.session;
    Ok(r.answer)
}

pub fn response(
    s: &mut Session,
    store: &[u8],
    table: &mut [u64],
    m: Response,
    handle: &[u8],
) -> Result<Answer, Refusal>
    ensures { PromisedAt (R.response (response_of m handle.now)) s.old store.now table.old (outcome s.new result) table.new }
{
    let r = responses::response(*s, store, table, m, handle)?;
    *s = r.session;
    Ok(r.answer)
}

pub fn handshake(
    s: &mut Session,
    store: &[u8],
    table: &mut [u64],
    m: Response,
    handle: &[u8],
) -> Result<Answer, Refusal>
    ensures { PromisedAt (R.handshake (response_of m handle.now)) s.old store.now table.old (outcome s.new result) table.new }
{
    let r = responses::handshake(*s, store, table, m, handle)?;
    *s = r.session;
    Ok(r.answer)
}

pub fn stream_break(s: &mut Session, b: Break, detail: &[u8]) -> Result<Answer, Refusal>
    ensures { Promised (R.break (break_of b detail.now)) s.old (outcome s.new result) }
{
    let r = reconnects::stream_break(*s, b, detail)?;
    *s = r.session;
    Ok(r.answer)
}

pub fn judge(s: &mut Session, verdict: u8) -> Result<Answer, Refusal>
    ensures { Promised (R.judge verdict) s.old (outcome s.new result) }
{
    let r = reconnects::judge(*s, verdict)?;
    *s = r.session;
    Ok(r.answer)
}

pub fn failed_attempt(
    s: &mut Session,
    b: Break,
    detail: &[u8],
    verdict: u8,
) -> Result<Answer, Refusal>
    ensures { Promised (R.failed_attempt (break_of b detail.now) verdict) s.old (outcome s.new result) }
{
    let r = reconnects::failed_attempt(*s, b, detail, verdict)?;
    *s = r.session;
    Ok(r.answer)
}

pub fn next_request(
    s: &mut Session,
    store: &[u8],
    table: &[u64],
    out: &mut [u8],
) -> Result<Answer, Refusal>
    ensures { Promise (R.next_request (length out.old)) s.old store.now table.now out.old (outcome s.new result) store.now table.now out.new }
{
    let r = replays::next_request(*s, store, table, out)?;
    *s = r.session;
    Ok(r.answer)
}

pub fn send_failed(s: &mut Session) -> Result<Answer, Refusal>
    ensures { Promised R.send_failed s.old (outcome s.new result) }
{
    let r = replays::send_failed(*s)?;
    *s = r.session;
    Ok(r.answer)
}

// What the host may see of the session; nothing changes.
pub fn view(s: &Session) -> View
    ensures { Shown s.now result }
{
    view_of(*s)
}

// The spec that a reconnect dials with.
pub fn spec(s: &Session) -> AppendObjectSpec
    ensures { Dials s.now result }
{
    spec_of(*s)
}
