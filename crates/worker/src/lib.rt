// Ported from google-cloud-storage 1.21.0, src/storage/bidi_write/worker.rs, Copyright 2026 Google LLC (Apache-2.0); changed: no tasks, channels or heap.
#![tactic(auto)]

ghost use Rattle.std.specs.Prelude.{◌≡◌, not, cond, ◌&&◌, ◌||◌, List, [], ◌∷◌, ◌++◌, ℕ, ◌+◌, ◌*◌, ◌-◌, ◌<◌, ◌≤◌, ◌^◌, leb, eqb, length, take, drop};
ghost use Rattle.std.proofs.Math.Option.{some};
ghost use Rattle.std.proofs.Math.ListN.{get_elem?};
ghost use Rattle.rules.specs.Limits.{max_waiters};
ghost use Rattle.rules.specs.Message.{Bytes};
ghost use Rattle.rules.specs.Session as S;
ghost use Rattle.rules.specs.Upload.{flush_request, finish_request, chunk_request, is_finalizing};
ghost use Rattle.rules.specs.Respond as R;
ghost use Rattle.bidi_write.specs.View.{checksum_of, request_of};
ghost use Rattle.connector.specs.View.{connector_of};
ghost use Rattle.replay_buffer.specs.View.{Lent};
ghost use Rattle.worker.specs.View.{kind_of, pending_of, waiters_of, no_waiters, worker_of};

use bidi_write::{ChecksummedData, Offset, Request, below};
use connector::Connector;
use replay_buffer::ReplayBuffer;

// At most so many requests wait.
pub const MAX_PENDING: usize = 16;

// Which kind of confirmation a request waits for.
#[derive(Clone, Copy)]
pub enum PendingKind {
    Flush,
    Finalize,
}

// A flush or finalize request that awaits the server's confirmation.
#[derive(Clone, Copy)]
pub struct PendingRequest {
    pub kind: PendingKind,
    pub write_offset: Offset,
    pub object_checksums: Option<u32>,
}

// The waiting requests, oldest first, the first `count` of an array: there is no heap. Their numbers follow from how many were made.
#[derive(Clone, Copy)]
pub struct PendingRequests {
    pub requests: [PendingRequest; MAX_PENDING],
    pub count: usize,
}

#[derive(Clone, Copy)]
pub struct Worker {
    pub connector: Connector,
    pub replay_buffer: ReplayBuffer,
    pub pending_requests: PendingRequests,
    // the highest byte offset that the server acknowledged
    pub persisted_size: Offset,
    // finalize was sent
    pub finalized: bool,
    // a flush of the worker's own awaits a response
    pub self_flush_outstanding: bool,
}

// ---- requests

// Asks the server to persist, and to say how far it has.
#[tactic(auto, unfolding(bidi_write::specs::View::request_of))]
pub fn flush_request(write_offset: Offset) -> Request
    ensures { (out : Bytes) → request_of result out ≡ flush_request write_offset.0 }
{
    Request {
        write_offset,
        data: None,
        object_checksums: None,
        state_lookup: true,
        flush: true,
        finish_write: false,
    }
}

// Asks the server to finalise the object, whose bytes have the running sum, if it is known.
#[tactic(auto, unfolding(bidi_write::specs::View::request_of))]
pub fn finish_request(write_offset: Offset, running: Option<u32>) -> Request
    ensures { (out : Bytes) → request_of result out ≡ finish_request write_offset.0 (checksum_of running) }
{
    Request {
        write_offset,
        data: None,
        object_checksums: running,
        state_lookup: false,
        flush: true,
        finish_write: true,
    }
}

// Carries a chunk, whose bytes are the first `length` of the out buffer.
#[tactic(auto, unfolding(bidi_write::specs::View::request_of))]
pub fn chunk_request(write_offset: Offset, length: usize, crc32c: u32, flushes: bool) -> Request
    ensures { (out : Bytes) → request_of result out ≡ chunk_request (record { write_offset = write_offset.0; bytes = take length out; crc32c = crc32c }) flushes }
{
    Request {
        write_offset,
        data: Some(ChecksummedData { length, crc32c }),
        object_checksums: None,
        state_lookup: flushes,
        flush: flushes,
        finish_write: false,
    }
}

// ---- waiting requests

#[tactic(auto, using(crate::proofs::Waiters::satisfied_is), unfolding(bidi_write::specs::View::request_of))]
impl PendingRequest {
    // Whether a response that states this size confirms the request.
    pub fn is_satisfied(self, size: Offset, finalized: bool) -> bool
        ensures { result ≡ R.is_satisfied size.0 finalized (pending_of self) }
    {
        !below(size, self.write_offset)
            && match self.kind {
                PendingKind::Flush => !finalized,
                PendingKind::Finalize => finalized,
            }
    }

    // The request itself, for a replay.
    pub fn request(self) -> Request
        ensures { (out : Bytes) → request_of result out ≡ (pending_of self).request }
    {
        match self.kind {
            PendingKind::Flush => flush_request(self.write_offset),
            PendingKind::Finalize => finish_request(self.write_offset, self.object_checksums),
        }
    }
}

#[tactic(auto, using(crate::proofs::Waiters::element_map), unfolding(crate::specs::View::waiters_of, crate::specs::View::no_waiters))]
impl PendingRequests {
    pub fn new() -> PendingRequests
        ensures { result ≡ no_waiters }
    {
        let unused = PendingRequest {
            kind: PendingKind::Flush,
            write_offset: Offset(0),
            object_checksums: None,
        };
        PendingRequests {
            requests: [unused; MAX_PENDING],
            count: 0,
        }
    }

    // How many wait.
    pub fn len(self) -> usize
        requires { self.count ≤ max_waiters }
        ensures value { result ≡ length (waiters_of self) }
        ensures value_2 { result ≡ self.count }
    {
        self.count
    }

    pub fn push(mut self, p: PendingRequest) -> PendingRequests
        requires { self.count < max_waiters }
        ensures result_value { waiters_of result ≡ waiters_of self ++ (pending_of p ∷ []) }
        ensures count_value { result.count ≡ self.count + 1 }
    {
        self.requests[self.count] = p;
        self.count += 1;
        self
    }

    // How many requests a response completes: those at the front, up to the first that it does not satisfy.
    pub fn satisfied(self, size: Offset, finalized: bool) -> usize
        requires { self.count ≤ max_waiters }
        ensures value { result ≡ R.satisfied size.0 finalized (waiters_of self) }
        ensures upper_bound { result ≤ self.count }
    {
        for k in 0..self.count {
            if !self.requests[k].is_satisfied(size, finalized) {
                return k;
            }
        }
        self.count
    }

    // The first k requests go.
    pub fn complete(mut self, k: usize) -> PendingRequests
        requires { (k ≤ self.count) × (self.count ≤ max_waiters) }
        ensures result_value { waiters_of result ≡ drop k (waiters_of self) }
        ensures count_value { result.count ≡ self.count - k }
    {
        let count = self.count;
        self.requests.copy_within(k..count, 0);
        self.count = count - k;
        self
    }

    pub fn nth(self, i: usize) -> PendingRequest
        requires { (i < self.count) × (self.count ≤ max_waiters) }
        ensures { get_elem? (waiters_of self) i ≡ some (pending_of result) }
    {
        self.requests[i]
    }
}

// ---- the watermark

// Whether stored bytes have crossed the high watermark and no response is owed: plain appends elicit none, and only a response frees memory.
pub fn needs_watermark_flush(
    waiting: usize,
    self_flush_outstanding: bool,
    unpersisted_bytes: usize,
    capacity: usize,
    limit: usize,
) -> bool
    ensures { result ≡ (eqb waiting 0 && not self_flush_outstanding && leb (capacity - 2 * limit) unpersisted_bytes) }
{
    let watermark = capacity.saturating_sub(limit).saturating_sub(limit);
    waiting == 0 && !self_flush_outstanding && watermark <= unpersisted_bytes
}

// "No free chunk slot" for a chunk; "16 waiters wait, or 2^64 − 1 were made" for a waiter.
pub fn lacks_room(cuts: bool, slots: usize, chunks: usize, waiting: usize, made: u64) -> bool
    ensures { result ≡ cond cuts (leb slots chunks) (leb max_waiters waiting || leb (2 ^ 64 - 1) made) }
{
    if cuts {
        return slots <= chunks;
    }
    MAX_PENDING <= waiting || u64::MAX <= made
}

// Whether finalise was sent, now or before.
pub fn finalizes(finalized: bool, kind: PendingKind) -> bool
    ensures { result ≡ (finalized || is_finalizing (kind_of kind)) }
{
    finalized || matches!(kind, PendingKind::Finalize)
}

// Whether finalise was sent and no request waits.
pub fn is_complete(finalized: bool, waiting: usize) -> bool
    ensures { result ≡ (finalized && eqb waiting 0) }
{
    finalized && waiting == 0
}

// ---- the worker with a part anew

#[tactic(auto, unfolding(crate::specs::View::worker_of))]
impl Worker {
    pub fn set_connector(self, c: Connector) -> Worker
        ensures table_value { (m : Lent) (end : ℕ) (store : Bytes) (table : List ℕ) → worker_of m end result store table ≡ S.set_connector (connector_of c) (worker_of m end self store table) }
        ensures value { result ≡ record self { connector = c } }
    {
        Worker {
            connector: c,
            ..self
        }
    }

    pub fn set_pending(self, q: PendingRequests, finalized: bool) -> Worker
        ensures table_value { (m : Lent) (end : ℕ) (store : Bytes) (table : List ℕ) → worker_of m end result store table ≡ S.set_pending (waiters_of q) finalized (worker_of m end self store table) }
        ensures value { result ≡ record self { pending_requests = q; finalized = finalized } }
    {
        Worker {
            pending_requests: q,
            finalized,
            ..self
        }
    }

    pub fn set_mark(self, mark: bool) -> Worker
        ensures table_value { (m : Lent) (end : ℕ) (store : Bytes) (table : List ℕ) → worker_of m end result store table ≡ S.set_mark mark (worker_of m end self store table) }
        ensures value { result ≡ record self { self_flush_outstanding = mark } }
    {
        Worker {
            self_flush_outstanding: mark,
            ..self
        }
    }

    // The size is acknowledged: what is left of the stored chunks and of the waiting requests.
    pub fn absorb(self, b: ReplayBuffer, q: PendingRequests, size: Offset) -> Worker
        ensures { result ≡ record self { replay_buffer = b; pending_requests = q; persisted_size = size } }
    {
        Worker {
            replay_buffer: b,
            pending_requests: q,
            persisted_size: size,
            ..self
        }
    }
}
