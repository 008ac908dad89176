// Ported from google-cloud-storage 1.21.0, src/storage/bidi_write/transport.rs, Copyright 2026 Google LLC (Apache-2.0); changed: no tasks, channels or heap.
// What a host may see of its session, by value, and of an answer.
#![tactic(auto)]

ghost use Rattle.std.specs.Prelude.{◌≡◌};
ghost use Rattle.transport.specs.View.{handed, released};
ghost use Rattle.shown.specs.Shown.{Shown, Dials};

use bidi_write::{Offset, Refusal, Request};
use state::AppendObjectSpec;
use transport::{Answer, Phase, Session};

#[derive(Clone, Copy)]
pub struct View {
    pub phase: Phase,
    // P
    pub persisted_size: Offset,
    // bytes
    pub stored: usize,
    pub held: usize,
    pub capacity: usize,
    // requests that wait for the server
    pub waiters: usize,
}

pub fn view_of(s: Session) -> View
    ensures { Shown s result }
{
    View {
        phase: s.phase,
        persisted_size: s.worker.persisted_size,
        stored: s.worker.replay_buffer.unpersisted_bytes,
        held: s.held,
        capacity: s.worker.replay_buffer.capacity,
        waiters: s.worker.pending_requests.count,
    }
}

// The spec that a reconnect dials with.
pub fn spec_of(s: Session) -> AppendObjectSpec
    ensures { Dials s result }
{
    s.worker.connector.spec
}

// The request that an answer hands out.
pub fn handed(answer: Result<Answer, Refusal>) -> Option<Request>
    ensures { result ≡ handed answer }
{
    match answer {
        Ok(Answer::Took(_, r)) => r,
        Ok(Answer::Sends(r)) => Some(r),
        Ok(Answer::Waits(r, _)) => Some(r),
        Ok(Answer::Completes(c)) => c.request,
        _ => None,
    }
}

// The bytes that an answer says were released.
pub fn released(answer: Result<Answer, Refusal>) -> usize
    ensures { result ≡ released answer }
{
    match answer {
        Ok(Answer::Completes(c)) => c.released,
        Ok(Answer::Ends(e)) => e.released,
        _ => 0,
    }
}
