// Ported from google-cloud-storage 1.21.0, src/storage/bidi_write/transport.rs and worker.rs, Copyright 2026 Google LLC (Apache-2.0); changed: no tasks, channels or heap.
// Flush and finalise: "with held bytes cut them as one chunk and make no waiter; the call is repeated. With none held they send their request and make a waiter."
#![tactic(auto)]

ghost use Rattle.std.specs.Prelude.{◌<◌, ◌-◌, ◌^◌, length};
ghost use Rattle.rules.specs.Limits.{max_waiters};
ghost use Rattle.rules.specs.Session as R;
ghost use Rattle.transport.specs.View.{left};
ghost use Rattle.transport.specs.Promise.{Promise};
ghost use Rattle.flushes.specs.Flush.{call_of, Awaits};

use bidi_write::Refusal;
use cuts::{Sending, cut};
use transport::guard::enter;
use transport::phases::phase_number;
use transport::{Answer, Outcome, Sent, Session};
use worker::{PendingKind, PendingRequest};

pub fn flush(
    s: Session,
    store: &[u8],
    table: &mut [u64],
    out: &mut [u8],
) -> Result<Outcome, Refusal>
    ensures { Promise (R.flush (length out.old)) s store.now table.old out.old (left s result) store.now table.new out.new }
{
    ask(PendingKind::Flush, s, store, table, out)
}

pub fn finalise(
    s: Session,
    store: &[u8],
    table: &mut [u64],
    out: &mut [u8],
) -> Result<Outcome, Refusal>
    ensures { Promise (R.finalise (length out.old)) s store.now table.old out.old (left s result) store.now table.new out.new }
{
    ask(PendingKind::Finalize, s, store, table, out)
}

// The held bytes are cut, or where there are none a waiter is made.
fn ask(
    kind: PendingKind,
    s: Session,
    store: &[u8],
    table: &mut [u64],
    out: &mut [u8],
) -> Result<Outcome, Refusal>
    ensures { Promise (call_of kind (length out.old)) s store.now table.old out.old (left s result) store.now table.new out.new }
{
    enter(s, store.len(), table.len())?;
    let cuts = s.held != 0;
    admission::upload(
        phase_number(s.phase),
        s.worker.finalized,
        s.limit,
        s.worker.replay_buffer.capacity,
        s.worker.replay_buffer.unpersisted_bytes,
        s.write_offset,
        true,
        cuts,
        s.held,
        out.len(),
        worker::lacks_room(
            cuts,
            s.slots,
            s.worker.replay_buffer.chunks,
            s.worker.pending_requests.count,
            s.made,
        ),
    )?;
    if cuts {
        let Sending { session, request } = cut(s, store, table, out, s.held);
        return Ok(Outcome {
            session,
            answer: Answer::Sends(request),
        });
    }
    let Sending { session, request } = wait(kind, s);
    Ok(Outcome {
        session,
        answer: Answer::Waits(request, session.made),
    })
}

// The session with a waiter more, and the request that it waits for.
fn wait(kind: PendingKind, s: Session) -> Sending
    requires { (s.worker.pending_requests.count < max_waiters) × (s.made < 2 ^ 64 - 1) }
    ensures { Awaits kind s result }
{
    let waiter = PendingRequest {
        kind,
        write_offset: s.write_offset,
        object_checksums: s.running_crc32c,
    };
    Sending {
        session: Session {
            sent: Sent::Request,
            made: s.made + 1,
            worker: s.worker.set_pending(
                s.worker.pending_requests.push(waiter),
                worker::finalizes(s.worker.finalized, kind),
            ),
            ..s
        },
        request: waiter.request(),
    }
}
