// Ported from google-cloud-storage 1.21.0, src/storage/bidi_write/transport.rs and worker.rs, Copyright 2026 Google LLC (Apache-2.0); changed: no tasks, channels or heap.
// What append, flush and finalise share: the cut of a chunk.
#![tactic(auto)]

ghost use Rattle.std.specs.Prelude.{◌≡◌, false, ◌+◌, ◌<◌, ◌^◌, pos, length};
ghost use Rattle.std.specs.Int.Signed.{lt_z};
ghost use Rattle.bidi_write.specs.Numbers.{to_ℕ};
ghost use Rattle.cuts.specs.Cut.{CutRoom, Cuts, CutSession};

use bidi_write::Request;
use replay_buffer::ReplayBuffer;
use transport::{Sent, Session};
use worker::Worker;

// The session after a call that sends, and the request.
#[derive(Clone, Copy)]
pub struct Sending {
    pub session: Session,
    pub request: Request,
}

// The n bytes behind the stored ones are cut as a chunk. They stand in the ring already: they are summed there, and copied once, to the front of out.
pub fn cut(s: Session, store: &[u8], table: &mut [u64], out: &mut [u8], n: usize) -> Sending
    requires { CutRoom s n (length store.now) (length table.old) (length out.old) }
    ensures { Cuts s n store.now table.old out.old result table.new out.new }
{
    let b = s.worker.replay_buffer;
    let size = replay_buffer::ring_size(b.capacity, s.limit);
    let crc32c = ring::sum_at(store, size, b.head, b.unpersisted_bytes, n);
    ring::copy_out(store, size, b.head, b.unpersisted_bytes, out, n);
    let replay_buffer = replay_buffer::push(b, table, s.slots, n, crc32c);
    cut_session(s, replay_buffer, crc32c, n)
}

// The session after a cut of n bytes, whose chunk is in the buffer b, and the chunk's request.
fn cut_session(s: Session, b: ReplayBuffer, crc32c: u32, n: usize) -> Sending
    requires { (lt_z s.write_offset.0 (pos 0) ≡ false) × (to_ℕ s.write_offset.0 + n < 2 ^ 63) }
    ensures { CutSession s b crc32c n result }
{
    let flush = worker::needs_watermark_flush(
        s.worker.pending_requests.count,
        s.worker.self_flush_outstanding,
        b.unpersisted_bytes,
        b.capacity,
        s.limit,
    );
    Sending {
        session: Session {
            sent: Sent::Request,
            write_offset: bidi_write::plus(s.write_offset, n),
            // "Joins the chunk's sum to a known running sum."
            running_crc32c: s
                .running_crc32c
                .map(|sum| crc32c::combine(sum, crc32c, n as u64)),
            held: 0,
            worker: Worker {
                replay_buffer: b,
                self_flush_outstanding: s.worker.self_flush_outstanding || flush,
                ..s.worker
            },
            ..s
        },
        request: worker::chunk_request(s.write_offset, n, crc32c, flush),
    }
}
