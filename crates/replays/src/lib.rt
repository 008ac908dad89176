// Ported from google-cloud-storage 1.21.0, src/storage/bidi_write/worker.rs, Copyright 2026 Google LLC (Apache-2.0); changed: no tasks, channels or heap.
// Next request: "Replay hands out one request a call: stored chunks, waiting requests, a bare flush if the watermark holds, then *done*, live again."
// And a send reported failed, which ends a replay.
#![tactic(auto)]

ghost use Rattle.std.specs.Prelude.{◌≡◌, not, ◌&&◌, ◌≤◌, length};
ghost use Rattle.rules.specs.Limits.{max_waiters};
ghost use Rattle.rules.specs.Session as R;
ghost use Rattle.rules.specs.Replay.{is_nothing, is_bare};
ghost use Rattle.transport.specs.Promise.{Promise, Promised};
ghost use Rattle.transport.specs.View.{sent_of, left};
ghost use Rattle.replays.specs.Replay.{cursor_of, Further, HandsChunk, HandsRest, HandsLast};
ghost use Rattle.replays.specs.Unsent.{stopped};
ghost use Rattle.transport.specs.Valid.{GuardedAt};

use bidi_write::Refusal;
use transport::guard::enter;
use transport::parts::{renew, set_phase};
use transport::phases::phase_number;
use transport::{Answer, Cursor, Outcome, Phase, Sent, Session};

pub fn next_request(
    s: Session,
    store: &[u8],
    table: &[u64],
    out: &mut [u8],
) -> Result<Outcome, Refusal>
    ensures { Promise (R.next_request (length out.old)) s store.now table.now out.old (left s result) store.now table.now out.new }
{
    enter(s, store.len(), table.len())?;
    let at = cursor(s.phase);
    let more = at.next < s.worker.replay_buffer.chunks;
    let short = more && out.len() < s.limit;
    admission::next_request(phase_number(s.phase), short)?;
    if more {
        return Ok(hand_chunk(s, store, table, out, at));
    }
    Ok(hand_rest(s, at))
}

// Where a replay stands; at its beginning in any other phase.
fn cursor(p: Phase) -> Cursor
    ensures { result ≡ cursor_of p }
{
    if let Phase::Replay(c) = p {
        c
    } else {
        Cursor { next: 0, bytes: 0 }
    }
}

// One request more, which carried so many bytes.
fn advance(at: Cursor, bytes: usize) -> Cursor
    ensures { Further at bytes result }
{
    Cursor {
        next: at.next.saturating_add(1),
        bytes: at.bytes.saturating_add(bytes),
    }
}

// The stored chunk that is next.
fn hand_chunk(s: Session, store: &[u8], table: &[u64], out: &mut [u8], at: Cursor) -> Outcome
    requires { GuardedAt s (length store.now) (length table.now) }
    ensures { HandsChunk s store.now table.now at out.old result out.new }
{
    let b = s.worker.replay_buffer;
    let size = replay_buffer::ring_size(b.capacity, s.limit);
    let c = replay_buffer::chunk_to_replay(
        b,
        store,
        size,
        table,
        s.slots,
        s.write_offset,
        at.next,
        at.bytes,
        out,
    );
    let replay = Phase::Replay(advance(at, c.length));
    let request = worker::chunk_request(c.write_offset, c.length, c.crc32c, false);
    Outcome {
        session: set_phase(s, replay, Sent::Request),
        answer: Answer::Sends(request),
    }
}

// Behind the chunks: the waiting requests, and what is last.
fn hand_rest(s: Session, at: Cursor) -> Outcome
    requires { (s.worker.replay_buffer.chunks ≤ at.next) × (s.worker.pending_requests.count ≤ max_waiters) }
    ensures { HandsRest s at result }
{
    let waiting = s.worker.pending_requests;
    let i = at.next - s.worker.replay_buffer.chunks;
    if i < waiting.count {
        let replay = Phase::Replay(advance(at, 0));
        return Outcome {
            session: set_phase(s, replay, Sent::Request),
            answer: Answer::Sends(waiting.nth(i).request()),
        };
    }
    hand_last(s, at)
}

// Behind all of these: a bare flush if the watermark holds, else the replay is done.
fn hand_last(s: Session, at: Cursor) -> Outcome
    ensures { HandsLast s at result }
{
    let w = s.worker;
    if worker::needs_watermark_flush(
        w.pending_requests.count,
        w.self_flush_outstanding,
        w.replay_buffer.unpersisted_bytes,
        w.replay_buffer.capacity,
        s.limit,
    ) {
        let replay = Phase::Replay(advance(at, 0));
        return Outcome {
            session: renew(s, w.set_mark(true), replay, Sent::BareFlush),
            answer: Answer::Sends(worker::flush_request(s.write_offset)),
        };
    }
    Outcome {
        session: set_phase(s, Phase::Live, Sent::Nothing),
        answer: Answer::Done,
    }
}

// ---- a send reported failed

// "Allowed directly after an accepted call that sent ..., else 6, ends a replay, clears the mark after a bare flush, and else changes nothing."
pub fn send_failed(s: Session) -> Result<Outcome, Refusal>
    ensures { Promised R.send_failed s (left s result) }
{
    admission::send_failed(phase_number(s.phase), is_nothing(s.sent))?;
    let w = s.worker;
    let mark = mark_after(w.self_flush_outstanding, s.sent);
    Ok(Outcome {
        session: renew(s, w.set_mark(mark), stop_replay(s.phase), Sent::Nothing),
        answer: Answer::Accepted,
    })
}

fn is_nothing(n: Sent) -> bool
    ensures { result ≡ is_nothing (sent_of n) }
{
    matches!(n, Sent::Nothing)
}

// A bare flush that was not sent awaits no response.
fn mark_after(mark: bool, n: Sent) -> bool
    ensures { result ≡ (mark && not (is_bare (sent_of n))) }
{
    mark && !matches!(n, Sent::BareFlush)
}

fn stop_replay(p: Phase) -> Phase
    ensures { result ≡ stopped p }
{
    match p {
        Phase::Replay(_) => Phase::Live,
        _ => p,
    }
}
