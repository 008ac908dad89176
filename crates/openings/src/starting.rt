// Ported from google-cloud-storage 1.21.0, src/storage/bidi_write/transport.rs, Copyright 2026 Google LLC (Apache-2.0); changed: no tasks, channels or heap.
// The session of an accepted opening (`connect_attempt`, `start_worker`), and that of a refused one.
ghost use Rattle.std.specs.Prelude.{◌≡◌, false, ◌&&◌, ◌+◌, ◌*◌, ◌<◌, ◌≤◌, ◌^◌, max, pos, length};
ghost use Rattle.std.specs.Option.{is_some};
ghost use Rattle.std.proofs.Math.Option.{Option, get_or};
ghost use Rattle.rules.specs.Limits.{max_chunk};
ghost use Rattle.rules.specs.Message as M;
ghost use Rattle.rules.specs.Opening as O;
ghost use Rattle.bidi_write.specs.Numbers.{to_ℕ};
ghost use Rattle.bidi_write.specs.View.{given, checksum_of, status_of};
ghost use Rattle.openings.specs.Opening.{beside, Admitted, Connects, empty_of, fresh_session, no_spec, unopened, payload_sum, Sized, Stores, Starts};

use crate::{Opening, asked_capacity};
use bidi_write::{Cause, Generation, Offset, WriteStatus};
use connector::Connector;
use replay_buffer::{Acked, ReplayBuffer, ring_size};
use state::{AppendObjectSpec, AppendObjectSpecState, MAX_BUCKET, MAX_OBJECT, Text};
use transport::{Phase, Sent, Session};
use worker::{PendingRequests, Worker};

// The session of an accepted opening, and how many bytes of the payload were released.
#[derive(Clone, Copy)]
pub struct Started {
    pub session: Session,
    pub released: usize,
}

// "Capacity is the larger of the asked one and 2 × C + 1."
pub fn capacity_for(asked: usize, limit: usize) -> usize
    requires { limit ≤ max_chunk }
    ensures { result ≡ max asked (2 * limit + 1) }
{
    asked.max(2 * limit + 1)
}

// The session that the calls start from. A payload goes to the front of the store, and its word to the table.
pub fn start(
    o: Opening,
    store: &mut [u8],
    table: &mut [u64],
    bucket: &[u8],
    object: &[u8],
    write_handle: &[u8],
    routing_token: &[u8],
    response_handle: &[u8],
    payload: &[u8],
) -> Started
    requires { Admitted o (beside bucket.now object.now write_handle.now routing_token.now response_handle.now payload.now) (length store.old) (length table.old) }
    ensures { Starts o (beside bucket.now object.now write_handle.now routing_token.now response_handle.now payload.now) store.old table.old result store.new table.new }
{
    let slots = table.len();
    let capacity = capacity_for(asked_capacity(o.capacity), o.limit);
    let persisted = opening_size(o.response.write_status);
    let sum = payload_sum(o.has_payload, payload);
    let connector = connect(
        o,
        bucket,
        object,
        write_handle,
        routing_token,
        response_handle,
    );
    let acked = store_payload(o.limit, capacity, store, table, payload, sum, persisted);
    let session = fresh(
        o.limit,
        slots,
        Phase::Live,
        write_offset(persisted, payload_length(o.has_payload, payload)),
        running_sum(sum, persisted, o.checksum),
        connector,
        acked.buffer,
        persisted,
    );
    Started {
        session,
        released: acked.released,
    }
}

// "persisted size P is the response's, 0 where absent"
fn opening_size(s: Option<WriteStatus>) -> Offset
    ensures { result.0 ≡ get_or (M.size_of (status_of s)) (pos 0) }
{
    bidi_write::persisted_size(s).unwrap_or(Offset(0))
}

// "the payload's length (none: 0)"
fn payload_length(present: bool, payload: &[u8]) -> usize
    ensures { result ≡ O.payload_length (given present payload.now) }
{
    if present { payload.len() } else { 0 }
}

fn payload_sum(present: bool, payload: &[u8]) -> Option<u32>
    ensures { result ≡ payload_sum (given present payload.now) }
{
    if present {
        Some(crc32c::crc32c(payload))
    } else {
        None
    }
}

// The response updates the spec that the opening dialled with.
fn connect(
    o: Opening,
    bucket: &[u8],
    object: &[u8],
    write_handle: &[u8],
    routing_token: &[u8],
    response_handle: &[u8],
) -> Connector
    requires bucket_len_bound { (length bucket.now ≤ 256) × (length object.now ≤ 1024) }
    requires write_handle_value { M.over M.max_handle (given (o.append && o.has_write_handle) write_handle.now) ≡ false }
    requires routing_token_value { M.over M.max_token (given o.has_routing_token routing_token.now) ≡ false }
    requires response_handle_value { M.over M.max_handle (given o.response.has_write_handle response_handle.now) ≡ false }
    ensures { Connects o bucket.now object.now write_handle.now routing_token.now response_handle.now result }
{
    let dialled = AppendObjectSpecState::new(
        o.append,
        bucket,
        object,
        o.generation,
        o.has_write_handle,
        write_handle,
        o.has_routing_token,
        routing_token,
        o.if_metageneration_match,
        o.if_metageneration_not_match,
    );
    Connector {
        spec: dialled.handle_response(o.response, response_handle),
        attempt_count: 0,
        redirects_followed: 0,
        last_persisted_size: o.last_persisted_size,
    }
}

// "a payload is stored at offset 0 and acknowledged to P": one whose sum is given.
fn store_payload(
    limit: usize,
    capacity: usize,
    store: &mut [u8],
    table: &mut [u64],
    payload: &[u8],
    sum: Option<u32>,
    persisted: Offset,
) -> Acked
    requires sized { Sized limit capacity (length store.old) (length table.old) }
    requires payload_value { M.over limit (given (is_some sum) payload.now) ≡ false }
    requires sum_value { sum ≡ payload_sum (given (is_some sum) payload.now) }
    ensures { Stores limit capacity (given (is_some sum) payload.now) persisted.0 store.old table.old result store.new table.new }
{
    let buffer = empty(capacity);
    match sum {
        None => Acked {
            buffer,
            released: 0,
        },
        Some(crc32c) => {
            let slots = table.len();
            let size = ring_size(capacity, limit);
            ring::copy_in(store, size, 0, 0, payload, payload.len());
            let pushed = replay_buffer::push(buffer, table, slots, payload.len(), crc32c);
            let end = bidi_write::from_nat(payload.len() as u64);
            replay_buffer::ack(pushed, store, size, table, slots, end, persisted)
        }
    }
}

// No chunk, at the front of store and table.
fn empty(capacity: usize) -> ReplayBuffer
    ensures { result ≡ empty_of capacity }
{
    ReplayBuffer {
        capacity,
        head: 0,
        unpersisted_bytes: 0,
        first: 0,
        chunks: 0,
    }
}

// "the write offset is the larger of P and the payload's length"
fn write_offset(persisted: Offset, n: usize) -> Offset
    requires { n ≤ max_chunk }
    ensures { (result.0 ≡ O.larger persisted.0 (pos n)) × (to_ℕ result.0 < 2 ^ 63) }
{
    let end = bidi_write::from_nat(n as u64);
    if bidi_write::below(persisted, end) {
        end
    } else {
        persisted
    }
}

// "The running sum is the payload's, else 0 where P = 0, else the response's, else unknown."
fn running_sum(sum: Option<u32>, persisted: Offset, stated: Option<u32>) -> Option<u32>
    ensures { (payload : Option M.Bytes) → sum ≡ payload_sum payload → checksum_of result ≡ O.open_sum payload persisted.0 (checksum_of stated) }
{
    match sum {
        Some(_) => sum,
        None if persisted.0 == 0 => Some(0),
        None => stated,
    }
}

// A session with no waiter and nothing held.
fn fresh(
    limit: usize,
    slots: usize,
    phase: Phase,
    write_offset: Offset,
    running_crc32c: Option<u32>,
    connector: Connector,
    replay_buffer: ReplayBuffer,
    persisted_size: Offset,
) -> Session
    ensures { result ≡ fresh_session limit slots phase write_offset running_crc32c connector replay_buffer persisted_size }
{
    Session {
        limit,
        slots,
        phase,
        sent: Sent::Nothing,
        made: 0,
        write_offset,
        running_crc32c,
        held: 0,
        worker: Worker {
            connector,
            replay_buffer,
            pending_requests: PendingRequests::new(),
            persisted_size,
            finalized: false,
            self_flush_outstanding: false,
        },
    }
}

// No name, generation, handle, token or condition.
#[tactic(auto, unfolding(crate::specs::Opening::no_spec))]
fn no_spec() -> AppendObjectSpec
    ensures { result ≡ no_spec }
{
    AppendObjectSpec {
        bucket: Text {
            bytes: [0u8; MAX_BUCKET],
            length: 0,
        },
        object: Text {
            bytes: [0u8; MAX_OBJECT],
            length: 0,
        },
        generation: Generation(0),
        write_handle: None,
        routing_token: None,
        if_metageneration_match: None,
        if_metageneration_not_match: None,
    }
}

// What a refused opening leaves: a session that ended, with the smallest ring and one slot.
#[tactic(auto, unfolding(crate::specs::Opening::unopened))]
pub fn unopened() -> Session
    ensures { result ≡ unopened }
{
    let connector = Connector {
        spec: no_spec(),
        attempt_count: 0,
        redirects_followed: 0,
        last_persisted_size: Offset(0),
    };
    fresh(
        1,
        1,
        Phase::Ended(Cause::GivenUp),
        Offset(0),
        None,
        connector,
        empty(3),
        Offset(0),
    )
}
