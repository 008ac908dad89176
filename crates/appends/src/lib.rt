// Ported from google-cloud-storage 1.21.0, src/storage/bidi_write/transport.rs, Copyright 2026 Google LLC (Apache-2.0); changed: no tasks, channels or heap.
// Append: "takes the smaller of its length and C − held. Held bytes reaching C are cut as one chunk."
#![tactic(auto)]

ghost use Rattle.std.specs.Prelude.{Ok, length};
ghost use Rattle.rules.specs.Session as R;
ghost use Rattle.transport.specs.View.{left};
ghost use Rattle.transport.specs.Valid.{GuardedAt};
ghost use Rattle.transport.specs.Promise.{Promise};
ghost use Rattle.appends.specs.Append.{Taking};

use bidi_write::Refusal;
use cuts::{Sending, cut};
use transport::guard::enter;
use transport::phases::phase_number;
use transport::{Answer, Outcome, Sent, Session};

pub fn append(
    s: Session,
    store: &mut [u8],
    table: &mut [u64],
    out: &mut [u8],
    data: &[u8],
) -> Result<Outcome, Refusal>
    ensures { Promise (R.append «data».now (length out.old)) s store.old table.old out.old (left s result) store.new table.new out.new }
{
    // "An append of nothing is always accepted, even after the end, takes 0 and changes nothing."
    if data.is_empty() {
        return Ok(Outcome {
            session: s,
            answer: Answer::Took(0, None),
        });
    }
    enter(s, store.len(), table.len())?;
    let n = coalescing_buffer::room(s.held, s.limit, data.len());
    let cuts = coalescing_buffer::fills(s.held, s.limit, n);
    admission::upload(
        phase_number(s.phase),
        s.worker.finalized,
        s.limit,
        s.worker.replay_buffer.capacity,
        s.worker.replay_buffer.unpersisted_bytes,
        s.write_offset,
        cuts,
        cuts,
        s.held + n,
        out.len(),
        cuts && s.slots <= s.worker.replay_buffer.chunks,
    )?;
    Ok(take(s, store, table, out, data, n, cuts))
}

// The first n bytes of data are held, and where they fill a chunk it is cut.
fn take(
    s: Session,
    store: &mut [u8],
    table: &mut [u64],
    out: &mut [u8],
    data: &[u8],
    n: usize,
    cuts: bool,
) -> Outcome
    requires guarded_at { GuardedAt s (length store.old) (length table.old) }
    requires taking { Taking s «data».now (length out.old) n cuts }
    ensures { Promise (R.append «data».now (length out.old)) s store.old table.old out.old (left s (Ok result)) store.new table.new out.new }
{
    let b = s.worker.replay_buffer;
    let size = replay_buffer::ring_size(b.capacity, s.limit);
    coalescing_buffer::extend(store, size, b.head, b.unpersisted_bytes, s.held, data, n);
    if cuts {
        let Sending { session, request } = cut(s, store, table, out, s.held + n);
        return Outcome {
            session,
            answer: Answer::Took(n, Some(request)),
        };
    }
    Outcome {
        session: Session {
            sent: Sent::Nothing,
            held: s.held + n,
            ..s
        },
        answer: Answer::Took(n, None),
    }
}
