// Ported from google-cloud-storage 1.21.0, src/storage/bidi_write/worker.rs, Copyright 2026 Google LLC (Apache-2.0); changed: no tasks, channels or heap.
// Responses and handshakes.
#![tactic(auto)]

ghost use Rattle.std.specs.Prelude.{◌≡◌, false, None};
ghost use Rattle.bidi_write.specs.View.{status_of, response_of};
ghost use Rattle.rules.specs.Message as M;
ghost use Rattle.rules.specs.Respond.{updated, progress, last_step, to_replay};
ghost use Rattle.rules.specs.Session as R;
ghost use Rattle.admission.specs.Rows.{message_rows};
ghost use Rattle.transport.specs.Promise.{PromisedAt};
ghost use Rattle.responses.specs.Respond.{Admits, with_connector, completes, Prepares, Flushes, Answers};
ghost use Rattle.transport.specs.View.{phase_of, left};

use admission::{CONNECTING, ENDED, LIVE, is_streaming};
use bidi_write::{Refusal, Request, Response};
use connector::Connector;
use sizes::{Settled, Taken, handle_response_success};
use transport::guard::enter;
use transport::parts::{end, set_phase};
use transport::phases::phase_number;
use transport::{Answer, Completed, Cursor, Outcome, Phase, Sent, Session};

// ---- the calls

// A response comes while live or closing. It clears the mark and updates the spec; then its size, if it states one, and the last step.
pub fn response(
    s: Session,
    store: &[u8],
    table: &mut [u64],
    m: Response,
    handle: &[u8],
) -> Result<Outcome, Refusal>
    ensures { PromisedAt (R.response (response_of m handle.now)) s store.now table.old (left s result) table.new }
{
    let wrong_phase = !is_streaming(phase_number(s.phase));
    admit(s, store.len(), table.len(), wrong_phase, m, handle)?;
    let t = prepare_response(s, m, handle);
    let taken = handle_response_success(t, store, table, m.write_status);
    Ok(answer_response(taken))
}

// A handshake comes while connecting. It is as a response, but that its size counts as progress and that it leads to replay, without bare flush.
pub fn handshake(
    s: Session,
    store: &[u8],
    table: &mut [u64],
    m: Response,
    handle: &[u8],
) -> Result<Outcome, Refusal>
    ensures { PromisedAt (R.handshake (response_of m handle.now)) s store.now table.old (left s result) table.new }
{
    let wrong_phase = phase_number(s.phase) != CONNECTING;
    admit(s, store.len(), table.len(), wrong_phase, m, handle)?;
    let t = prepare_handshake(s, m, handle);
    let taken = handle_response_success(t, store, table, m.write_status);
    Ok(answer_handshake(taken))
}

// What is asked before memory is touched, and then the refusals: 7, 6, 4.
fn admit(
    s: Session,
    store: usize,
    table: usize,
    wrong_phase: bool,
    m: Response,
    handle: &[u8],
) -> Result<(), Refusal>
    ensures { Admits s store table (message_rows (R.is_ended (phase_of s.phase)) wrong_phase (M.over M.max_handle (response_of m handle.now).write_handle)) result }
{
    enter(s, store, table)?;
    let ended = phase_number(s.phase) == ENDED;
    admission::message(ended, wrong_phase, connector::handle_too_long(m, handle))
}

// ---- the spec, the counts and the mark

// Another connector, and no own flush outstanding.
fn with_connector(s: Session, c: Connector) -> Session
    ensures { result ≡ with_connector c s }
{
    Session {
        worker: s.worker.set_connector(c).set_mark(false),
        ..s
    }
}

// A response updates the spec and clears the mark.
fn prepare_response(s: Session, m: Response, handle: &[u8]) -> Session
    requires { M.over M.max_handle (response_of m handle.now).write_handle ≡ false }
    ensures { Prepares (updated (response_of m handle.now)) s result }
{
    with_connector(s, s.worker.connector.handle_response(m, handle))
}

// So does a handshake, and its size counts as progress.
fn prepare_handshake(s: Session, m: Response, handle: &[u8]) -> Session
    requires { M.over M.max_handle (response_of m handle.now).write_handle ≡ false }
    ensures { Prepares (λ c. progress (M.size_of (status_of m.write_status)) (updated (response_of m handle.now) c)) s result }
{
    let size = bidi_write::persisted_size(m.write_status);
    let noted = s.worker.connector.handle_response(m, handle);
    with_connector(s, noted.progress(size))
}

// ---- the last step

fn answer_response(taken: Taken) -> Outcome
    ensures { Answers last_step taken.end taken.settled taken.session result }
{
    let (s, k) = (taken.session, taken.settled);
    match taken.end {
        None => maybe_send_watermark_flush(s, k),
        Some(cause) => end(s, cause, k.completed, k.released),
    }
}

// "If still live and the watermark holds, one bare flush request at the last chunk's end is sent and marked."
// The last chunk ends at the write offset, and under the watermark there is one.
fn maybe_send_watermark_flush(s: Session, settled: Settled) -> Outcome
    ensures { Answers last_step None settled s result }
{
    if needs_bare_flush(s) {
        return Outcome {
            session: Session {
                sent: Sent::BareFlush,
                worker: s.worker.set_mark(true),
                ..s
            },
            answer: completes(settled, Some(worker::flush_request(s.write_offset))),
        };
    }
    Outcome {
        session: Session {
            sent: Sent::Nothing,
            ..s
        },
        answer: completes(settled, None),
    }
}

fn needs_bare_flush(s: Session) -> bool
    ensures { Flushes s result }
{
    phase_number(s.phase) == LIVE
        && worker::needs_watermark_flush(
            s.worker.pending_requests.count,
            s.worker.self_flush_outstanding,
            s.worker.replay_buffer.unpersisted_bytes,
            s.worker.replay_buffer.capacity,
            s.limit,
        )
}

// A handshake leads to replay, from its first request.
fn answer_handshake(taken: Taken) -> Outcome
    ensures { Answers to_replay taken.end taken.settled taken.session result }
{
    let (s, k) = (taken.session, taken.settled);
    match taken.end {
        None => {
            let replay = Phase::Replay(Cursor { next: 0, bytes: 0 });
            Outcome {
                session: set_phase(s, replay, Sent::Nothing),
                answer: completes(k, None),
            }
        }
        Some(cause) => end(s, cause, k.completed, k.released),
    }
}

// What was settled, with a request or none.
fn completes(settled: Settled, request: Option<Request>) -> Answer
    ensures { result ≡ completes settled request }
{
    Answer::Completes(Completed {
        waiters: settled.completed,
        released: settled.released,
        request,
    })
}
