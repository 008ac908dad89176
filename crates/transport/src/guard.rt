// What a call that touches memory asks first.
ghost use Rattle.transport.specs.Valid.{Guarded, GuardedAt, Decides, Enters};

use crate::Session;
use crate::phases::phase_number;
use admission::ENDED;
use bidi_write::{MAX_CAPACITY, MAX_WRITE_CHUNK_SIZE, Offset, Refusal, refuse_if};
use replay_buffer::ReplayBuffer;
use worker::MAX_PENDING;

// 7 whatever is lent, then 2 for a record or memory that no call left.
pub fn enter(s: Session, store: usize, table: usize) -> Result<(), Refusal>
    ensures { Enters s store table result }
{
    refuse_if(phase_number(s.phase) == ENDED, Refusal::Ended)?;
    refuse_if(!guard(s, store, table), Refusal::ShortMemory)
}

// Whether a record stays within a store and a table of these lengths.
fn guard(s: Session, store: usize, table: usize) -> bool
    ensures { Decides (GuardedAt s store table) result }
{
    within(
        s.limit,
        s.slots,
        s.held,
        s.write_offset,
        s.worker.replay_buffer,
        s.worker.pending_requests.count,
        store,
        table,
    )
}

// Its numbers, test by test: of one chain of tests the proof did not close.
fn within(
    limit: usize,
    slots: usize,
    held: usize,
    write_offset: Offset,
    b: ReplayBuffer,
    waiting: usize,
    store: usize,
    table: usize,
) -> bool
    ensures { Decides (Guarded limit slots held write_offset.0 b waiting store table) result }
{
    if limit == 0 {
        return false;
    }
    if MAX_WRITE_CHUNK_SIZE < limit {
        return false;
    }
    if b.capacity <= 2 * limit {
        return false;
    }
    if MAX_CAPACITY < b.capacity {
        return false;
    }
    let size = replay_buffer::ring_size(b.capacity, limit);
    if store < size {
        return false;
    }
    if table < slots {
        return false;
    }
    if size <= b.head {
        return false;
    }
    if b.capacity + limit <= b.unpersisted_bytes {
        return false;
    }
    if limit <= held {
        return false;
    }
    if slots <= b.first {
        return false;
    }
    if slots < b.chunks {
        return false;
    }
    if MAX_PENDING < waiting {
        return false;
    }
    if bidi_write::is_negative(write_offset) {
        return false;
    }
    b.unpersisted_bytes as u64 <= bidi_write::to_nat(write_offset)
}
