// Ported from google-cloud-storage 1.21.0, src/storage/bidi_write/replay_buffer.rs, Copyright 2026 Google LLC (Apache-2.0); changed: no tasks, channels or heap.
// Unacknowledged chunks: their bytes lie in a ring over the lent store, a word for each in a ring over the lent table.
#![tactic(auto)]

ghost use Rattle.std.specs.Prelude.{◌≡◌, false, ◌<◌, ◌≤◌, ◌^◌, leb, pos, ◌+ℤ◌, ◌-ℤ◌};
ghost use lib.ListN.{length};
ghost use Rattle.std.specs.Int.Signed.{lt_z, le_z};
ghost use Rattle.ring.specs.Ring.{part, Within};
ghost use Rattle.bidi_write.specs.Numbers.{to_ℕ};
ghost use Rattle.rules.specs.Limits.{max_chunk, max_capacity, store_size};
ghost use Rattle.replay_buffer.specs.View.{lent, Fits};
ghost use Rattle.replay_buffer.specs.Push.{Room, Pushes};
ghost use Rattle.replay_buffer.specs.Ack.{Acks, Stored, Trims, front_of, advanced};
ghost use Rattle.replay_buffer.specs.Replay.{no_chunk, Replays};

use bidi_write::{Difference, MAX_CAPACITY, MAX_WRITE_CHUNK_SIZE, Offset};
use chunk_words::{len_of, pack, sum_of};

// Chunks lie end to end and end at the write offset, so their offsets are not kept.
#[derive(Clone, Copy)]
pub struct ReplayBuffer {
    pub capacity: usize,
    // the ring over the store: where the stored bytes begin, and how many there are
    pub head: usize,
    pub unpersisted_bytes: usize,
    // the ring over the table: where the words begin, and how many there are
    pub first: usize,
    pub chunks: usize,
}

// A stored chunk; its bytes fill the front of the out buffer.
#[derive(Clone, Copy)]
pub struct Chunk {
    pub write_offset: Offset,
    pub length: usize,
    pub crc32c: u32,
}

// What an acknowledgement leaves, and how many bytes it released.
#[derive(Clone, Copy)]
pub struct Acked {
    pub buffer: ReplayBuffer,
    pub released: usize,
}

// Whole chunks at the front, and how many bytes they have.
#[derive(Clone, Copy)]
struct Front {
    chunks: usize,
    bytes: usize,
}

// "capacity + 2 × C − 2": the bytes of the store that keep stored and held ones. 0 for numbers that no opening admits.
pub fn ring_size(capacity: usize, limit: usize) -> usize
    ensures { capacity ≤ max_capacity → limit ≤ max_chunk → result ≡ store_size capacity limit }
{
    if capacity > MAX_CAPACITY || limit > MAX_WRITE_CHUNK_SIZE {
        return 0;
    }
    (capacity + 2 * limit).saturating_sub(2)
}

// Enqueues a chunk, whose bytes stand behind the stored ones already.
pub fn push(
    b: ReplayBuffer,
    table: &mut [u64],
    slots: usize,
    length: usize,
    crc32c: u32,
) -> ReplayBuffer
    requires { Room slots b length (lib.ListN.length table.old) }
    ensures { Pushes slots b table.old length crc32c result table.new }
{
    let word = pack(length as u32, crc32c);
    ring::put_word(table, slots, b.first, b.chunks, word);
    ReplayBuffer {
        unpersisted_bytes: b.unpersisted_bytes + length,
        chunks: b.chunks + 1,
        ..b
    }
}

// Trims acknowledged chunks up to a persisted size: whole ones go, and one that it lands in keeps the rest, with its sum made afresh.
pub fn ack(
    b: ReplayBuffer,
    store: &[u8],
    size: usize,
    table: &mut [u64],
    slots: usize,
    end: Offset,
    persisted: Offset,
) -> Acked
    requires { (Fits (lent size slots) b (to_ℕ end.0) (length store.now) (length table.old)) × (lt_z end.0 (pos 0) ≡ false) }
    ensures { Acks (lent size slots) b (to_ℕ end.0) store.now table.old persisted.0 result table.new }
{
    let start = bidi_write::minus(end, b.unpersisted_bytes);
    let front = acknowledged(table, slots, b.first, b.chunks, start, persisted);
    // no table that pushes and acknowledgements leave
    if b.unpersisted_bytes < front.bytes {
        return Acked {
            buffer: b,
            released: 0,
        };
    }
    let rest = advance(b, size, slots, front);
    let buffer = trim(rest, store, size, table, slots, end, persisted);
    let released = b.unpersisted_bytes - buffer.unpersisted_bytes;
    Acked { buffer, released }
}

// Whether n bytes from an offset on end at or below a size.
fn ends_by(at: Offset, n: u32, persisted: Offset) -> bool
    ensures { result ≡ le_z (at.0 +ℤ pos n) persisted.0 }
{
    let d = bidi_write::subtract(persisted, at);
    match d {
        Difference::Below(_) => false,
        Difference::AtLeast(m) => n as u64 <= m,
    }
}

// The chunks at the front of the table that end at or below a persisted size, where the first begins at start.
fn acknowledged(
    table: &[u64],
    slots: usize,
    first: usize,
    chunks: usize,
    start: Offset,
    persisted: Offset,
) -> Front
    requires { Within (length table.now) slots first 0 chunks }
    ensures { result ≡ front_of persisted.0 start.0 (part slots first 0 chunks table.now) }
{
    let mut bytes = 0;
    let mut at = start;
    for i in 0..chunks {
        let len = len_of(ring::word_at(table, slots, first, i));
        if !ends_by(at, len, persisted) {
            return Front { chunks: i, bytes };
        }
        at = bidi_write::plus(at, len as usize);
        bytes += len as usize;
    }
    Front { chunks, bytes }
}

// The buffer less what is at its front.
#[tactic(auto, unfolding(crate::specs::Ack::advanced))]
fn advance(b: ReplayBuffer, size: usize, slots: usize, f: Front) -> ReplayBuffer
    requires stored { Stored b f }
    requires head_lt_size { (b.head < size) × (b.unpersisted_bytes ≤ size) × (size < 2 ^ 31) }
    requires first_lt_slots { (b.first < slots) × (b.chunks ≤ slots) × (slots < 2 ^ 63) }
    ensures { result ≡ advanced (lent size slots) b f }
{
    ReplayBuffer {
        head: ring::wrap(b.head + f.bytes, size),
        unpersisted_bytes: b.unpersisted_bytes - f.bytes,
        first: ring::wrap(b.first + f.chunks, slots),
        chunks: b.chunks - f.chunks,
        ..b
    }
}

// How far a size is past an offset, and 0 where it is not.
fn past(persisted: Offset, at: Offset) -> u64
    ensures { result ≡ to_ℕ (persisted.0 -ℤ at.0) }
{
    let d = bidi_write::subtract(persisted, at);
    match d {
        Difference::Below(_) => 0,
        Difference::AtLeast(n) => n,
    }
}

// The front chunk, which ends above the persisted size, begins there or above it.
fn trim(
    b: ReplayBuffer,
    store: &[u8],
    size: usize,
    table: &mut [u64],
    slots: usize,
    end: Offset,
    persisted: Offset,
) -> ReplayBuffer
    requires { (Fits (lent size slots) b (to_ℕ end.0) (length store.now) (length table.old)) × (lt_z end.0 (pos 0) ≡ false) }
    ensures { Trims (lent size slots) b (to_ℕ end.0) store.now table.old persisted.0 result table.new }
{
    if b.chunks == 0 {
        return b;
    }
    let start = bidi_write::minus(end, b.unpersisted_bytes);
    let trimmed = past(persisted, start);
    if trimmed == 0 {
        return b;
    }
    let len = len_of(ring::word_at(table, slots, b.first, 0)) as usize;
    // no table that pushes and acknowledgements leave
    if len as u64 <= trimmed || b.unpersisted_bytes < len {
        return b;
    }
    let bytes = trimmed as usize;
    let rest = advance(b, size, slots, Front { chunks: 0, bytes });
    let sum = ring::sum_at(store, size, rest.head, 0, len - bytes);
    let word = pack((len - bytes) as u32, sum);
    ring::put_word(table, slots, rest.first, 0, word);
    rest
}

// Whether the buffered byte count has reached or exceeded the capacity.
pub fn is_full(b: ReplayBuffer) -> bool
    ensures { result ≡ leb b.capacity b.unpersisted_bytes }
{
    b.capacity <= b.unpersisted_bytes
}

// The chunk with `next` chunks before it, which have `at` bytes; its bytes go to the front of out.
// From memory that pushes and acknowledgements did not leave, an empty chunk at 0.
pub fn chunk_to_replay(
    b: ReplayBuffer,
    store: &[u8],
    size: usize,
    table: &[u64],
    slots: usize,
    end: Offset,
    next: usize,
    at: usize,
    out: &mut [u8],
) -> Chunk
    requires { (Fits (lent size slots) b (to_ℕ end.0) (length store.now) (length table.now)) × (lt_z end.0 (pos 0) ≡ false) }
    ensures { Replays (lent size slots) b (to_ℕ end.0) store.now table.now next at out.old result out.new }
{
    if b.chunks <= next {
        return no_chunk();
    }
    let word = ring::word_at(table, slots, b.first, next);
    let length = len_of(word) as usize;
    if out.len() < length || b.unpersisted_bytes < at || b.unpersisted_bytes - at < length {
        return no_chunk();
    }
    ring::copy_out(store, size, b.head, at, out, length);
    let start = bidi_write::minus(end, b.unpersisted_bytes);
    Chunk {
        write_offset: bidi_write::plus(start, at),
        length,
        crc32c: sum_of(word),
    }
}

fn no_chunk() -> Chunk
    ensures { result ≡ no_chunk }
{
    Chunk {
        write_offset: Offset(0),
        length: 0,
        crc32c: 0,
    }
}
