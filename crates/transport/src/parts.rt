// Ported from google-cloud-storage 1.21.0, src/storage/bidi_write/transport.rs and worker.rs, Copyright 2026 Google LLC (Apache-2.0); changed: no tasks, channels or heap.
// The session record with a part anew, and a session that ends.
ghost use Rattle.std.specs.Prelude.{◌≡◌};
ghost use Rattle.transport.specs.Parts.{set_phase, set_worker, EndsAs};

use crate::{Answer, Ending, Outcome, Phase, Sent, Session};
use bidi_write::Cause;
use worker::{PendingRequests, Worker};

pub fn set_phase(s: Session, p: Phase, n: Sent) -> Session
    ensures { result ≡ set_phase p n s }
{
    Session {
        phase: p,
        sent: n,
        ..s
    }
}

// Another worker, phase and note of what was sent.
pub fn renew(s: Session, w: Worker, p: Phase, n: Sent) -> Session
    ensures { result ≡ set_phase p n (set_worker w s) }
{
    Session {
        phase: p,
        sent: n,
        worker: w,
        ..s
    }
}

// The session ends: every waiter fails or is dropped; stored and held bytes stay.
pub fn end(s: Session, cause: Cause, completed: usize, released: usize) -> Outcome
    ensures { EndsAs cause completed released s result }
{
    let none = s
        .worker
        .set_pending(PendingRequests::new(), s.worker.finalized);
    Outcome {
        session: renew(s, none, Phase::Ended(cause), Sent::Nothing),
        answer: Answer::Ends(Ending {
            cause,
            completed,
            released,
            failed: s.worker.pending_requests.count,
        }),
    }
}
