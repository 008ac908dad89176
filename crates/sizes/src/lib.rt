// Ported from google-cloud-storage 1.21.0, src/storage/bidi_write/worker.rs, Copyright 2026 Google LLC (Apache-2.0); changed: no tasks, channels or heap.
// The size that a message states is taken over.
#![tactic(auto)]

ghost use Rattle.std.specs.Prelude.{◌≡◌, length};
ghost use Rattle.std.proofs.Math.Option.{some};
ghost use Rattle.bidi_write.specs.View.{status_of};
ghost use Rattle.rules.specs.Message as M;
ghost use Rattle.sizes.specs.Size.{Absorbs, Takes, Goes, settled_nothing};
ghost use Rattle.sizes.specs.declared.Settled.{Settled};
ghost use Rattle.transport.specs.Valid.{GuardedAt};

use bidi_write::{Cause, Offset, WriteStatus};
use transport::Session;

// What a message settled: waiters completed, and bytes released.
#[derive(Clone, Copy)]
pub struct Settled {
    pub completed: usize,
    pub released: usize,
}

// A session that took over what a response states: what that settled, and why the session ends, if it does.
#[derive(Clone, Copy)]
pub struct Taken {
    pub session: Session,
    pub settled: Settled,
    pub end: Option<Cause>,
}

// What a status states is taken over: no size, and only the last step is left.
pub fn handle_response_success(
    s: Session,
    store: &[u8],
    table: &mut [u64],
    status: Option<WriteStatus>,
) -> Taken
    requires { GuardedAt s (length store.now) (length table.old) }
    ensures { Takes (M.size_of (status_of status)) (M.is_finalized (status_of status)) s store.now table.old result table.new }
{
    let finalized = bidi_write::is_finalized(status);
    if let Some(n) = bidi_write::persisted_size(status) {
        return take_size(s, store, table, n, finalized);
    }
    Taken {
        session: s,
        settled: nothing(),
        end: None,
    }
}

// "Size below P, end regressed"; one above the write offset, end beyond; else it is absorbed.
fn take_size(s: Session, store: &[u8], table: &mut [u64], n: Offset, finalized: bool) -> Taken
    requires { GuardedAt s (length store.now) (length table.old) }
    ensures { Takes (some n.0) finalized s store.now table.old result table.new }
{
    if bidi_write::below(n, s.worker.persisted_size) {
        return Taken {
            session: s,
            settled: nothing(),
            end: Some(Cause::Regressed),
        };
    }
    if bidi_write::below(s.write_offset, n) {
        return Taken {
            session: s,
            settled: nothing(),
            end: Some(Cause::Beyond),
        };
    }
    let (session, settled) = absorb_size(s, store, table, n, finalized);
    Taken {
        session,
        settled,
        end: end_after(session, finalized),
    }
}

// "A finalised response then ends the session, unless finalise was sent and no waiter is left."
fn end_after(s: Session, finalized: bool) -> Option<Cause>
    ensures { (k : Settled) → Goes s finalized k result }
{
    let complete = worker::is_complete(s.worker.finalized, s.worker.pending_requests.count);
    if finalized && !complete {
        return Some(Cause::AlreadyFinalized);
    }
    None
}

fn nothing() -> Settled
    ensures { result ≡ settled_nothing }
{
    Settled {
        completed: 0,
        released: 0,
    }
}

// P is the size n: "chunks ending at or below it go, the front one is trimmed"; "waiters are completed from the front while satisfied".
fn absorb_size(
    s: Session,
    store: &[u8],
    table: &mut [u64],
    n: Offset,
    finalized: bool,
) -> (Session, Settled)
    requires { GuardedAt s (length store.now) (length table.old) }
    ensures { Absorbs n.0 finalized s store.now table.old result.0 result.1 table.new }
{
    let b = s.worker.replay_buffer;
    let size = replay_buffer::ring_size(b.capacity, s.limit);
    let acked = replay_buffer::ack(b, store, size, table, s.slots, s.write_offset, n);
    let waiting = s.worker.pending_requests;
    let completed = waiting.satisfied(n, finalized);
    let worker = s
        .worker
        .absorb(acked.buffer, waiting.complete(completed), n);
    let settled = Settled {
        completed,
        released: acked.released,
    };
    (Session { worker, ..s }, settled)
}
