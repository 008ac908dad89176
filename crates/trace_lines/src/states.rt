// The whole state of a session: what the host's `view` and `spec` show, and the rest of the record.
use crate::answers::checksum;
use bidi_write::{Cause, Metageneration, Offset};
use replay_buffer::ReplayBuffer;
use shown::View;
use state::{AppendObjectSpec, RoutingToken, WriteHandle};
use trace_text::{flag_field, hexes, number, number_field, part, signed, signed_field, text};
use transport::{Phase, Session};
use worker::{PendingKind, PendingRequest};

// Nothing here knows that a call left the record, so its numbers are added wrapping. An opening whose ring is longer than the store is refused.
pub fn state(
    out: &mut [u8],
    n: usize,
    store: &[u8],
    table: &[u64],
    v: &View,
    x: &AppendObjectSpec,
    s: &Session,
) -> usize {
    let ring = part(store, 0, replay_buffer::ring_size(v.capacity, s.limit));
    let n = text(out, n, b"  st phase=");
    let n = text(out, n, phase(v.phase));
    let n = signed_field(out, n, b" P=", v.persisted_size.0);
    let n = held(out, n, ring, v, s.worker.replay_buffer.head);
    let n = number_field(out, n, b" stored=", v.stored as u64);
    let n = number_field(out, n, b" cap=", v.capacity as u64);
    let n = flag_field(out, n, b" mark=", s.worker.self_flush_outstanding);
    let n = flag_field(out, n, b" fin=", s.worker.finalized);
    let n = counts(out, n, s);
    let n = text(out, n, b" chunks=[");
    let n = chunks(out, n, ring, table, s);
    let n = text(out, n, b"] waiters=[");
    let n = waiters(out, n, s);
    let n = text(out, n, b"]");
    let n = spec(out, n, x);
    ended(out, n, v.phase)
}

fn phase(p: Phase) -> &'static [u8] {
    match p {
        Phase::Live => b"Live",
        Phase::Verdict(_) => b"Verdict",
        Phase::Connecting => b"Connecting",
        Phase::Replay(_) => b"Replay",
        Phase::Closing => b"Closing",
        Phase::Ended(_) => b"Ended",
    }
}

// The held bytes lie behind the stored ones.
fn held(out: &mut [u8], n: usize, ring: &[u8], v: &View, head: usize) -> usize {
    let n = text(out, n, b" held=");
    ring_bytes(out, n, ring, on(head, v.stored, ring.len()), v.held)
}

// The place in a ring so many steps on.
fn on(at: usize, steps: usize, size: usize) -> usize {
    ring::wrap(at.wrapping_add(steps), size)
}

// The bytes of a ring from a place on, which are at most two straight runs.
fn ring_bytes(out: &mut [u8], n: usize, ring: &[u8], from: usize, count: usize) -> usize {
    let to = from.wrapping_add(count);
    if to <= ring.len() {
        return hexes(out, n, part(ring, from, to));
    }
    let n = hexes(out, n, part(ring, from, ring.len()));
    hexes(out, n, part(ring, 0, to - ring.len()))
}

fn counts(out: &mut [u8], n: usize, s: &Session) -> usize {
    let c = &s.worker.connector;
    let n = signed_field(out, n, b" woff=", s.write_offset.0);
    let n = checksum(out, n, b" run=", s.running_crc32c);
    let n = signed_field(out, n, b" last=", c.last_persisted_size.0);
    let n = number_field(out, n, b" att=", c.attempt_count as u64);
    number_field(out, n, b" red=", c.redirects_followed as u64)
}

// ---- chunks

// Each is printed, and then dropped from the front.
fn chunks(out: &mut [u8], n: usize, ring: &[u8], table: &[u64], s: &Session) -> usize {
    let mut n = n;
    let mut b = s.worker.replay_buffer;
    for _ in 0..b.chunks {
        let word = table.get(b.first).copied().unwrap_or(0);
        n = chunk(out, n, ring, b, s.write_offset, word);
        b = rest(b, ring.len(), s.slots, word);
    }
    n
}

// Chunks lie end to end and end at the write offset.
fn chunk(out: &mut [u8], n: usize, ring: &[u8], b: ReplayBuffer, end: Offset, word: u64) -> usize {
    let at = bidi_write::to_nat(end).wrapping_sub(b.unpersisted_bytes as u64);
    let n = number(out, n, at);
    let n = text(out, n, b":");
    let n = ring_bytes(out, n, ring, b.head, chunk_words::len_of(word) as usize);
    let n = text(out, n, b":");
    let n = trace_text::sum(out, n, chunk_words::sum_of(word));
    text(out, n, b" ")
}

fn rest(b: ReplayBuffer, size: usize, slots: usize, word: u64) -> ReplayBuffer {
    let length = chunk_words::len_of(word) as usize;
    ReplayBuffer {
        head: on(b.head, length, size),
        unpersisted_bytes: b.unpersisted_bytes.wrapping_sub(length),
        first: on(b.first, 1, slots),
        ..b
    }
}

// ---- waiters

// The last of those made, which are numbered from 1.
fn waiters(out: &mut [u8], n: usize, s: &Session) -> usize {
    let q = &s.worker.pending_requests;
    let mut n = n;
    let mut number = s.made.wrapping_sub(q.count as u64);
    for p in q.requests.iter().take(q.count) {
        number = number.wrapping_add(1);
        n = waiter(out, n, number, p);
    }
    n
}

fn waiter(out: &mut [u8], n: usize, name: u64, p: &PendingRequest) -> usize {
    let n = number(out, n, name);
    let n = text(out, n, kind(p.kind));
    let n = signed(out, n, p.write_offset.0);
    let n = checksum(out, n, b":", p.request().object_checksums);
    text(out, n, b" ")
}

fn kind(k: PendingKind) -> &'static [u8] {
    match k {
        PendingKind::Flush => b"f@",
        PendingKind::Finalize => b"w@",
    }
}

// ---- the spec

fn spec(out: &mut [u8], n: usize, x: &AppendObjectSpec) -> usize {
    let n = text(out, n, b" spec=append,");
    let n = text(out, n, part(&x.bucket.bytes, 0, x.bucket.length));
    let n = text(out, n, b",");
    let n = text(out, n, part(&x.object.bytes, 0, x.object.length));
    let n = signed_field(out, n, b",gen=", x.generation.0);
    let n = routing_token(out, n, &x.routing_token);
    let n = write_handle(out, n, &x.write_handle);
    let n = condition(out, n, b",m=", x.if_metageneration_match);
    condition(out, n, b",n=", x.if_metageneration_not_match)
}

fn routing_token(out: &mut [u8], n: usize, t: &Option<RoutingToken>) -> usize {
    let Some(t) = t else {
        return text(out, n, b",token=none");
    };
    let n = text(out, n, b",token='");
    let n = text(out, n, part(&t.bytes, 0, t.length));
    text(out, n, b"'")
}

fn write_handle(out: &mut [u8], n: usize, h: &Option<WriteHandle>) -> usize {
    let Some(h) = h else {
        return text(out, n, b",handle=none");
    };
    let n = text(out, n, b",handle='");
    let n = hexes(out, n, part(&h.bytes, 0, h.length));
    text(out, n, b"'")
}

fn condition(out: &mut [u8], n: usize, name: &[u8], c: Option<Metageneration>) -> usize {
    let n = text(out, n, name);
    match c {
        None => text(out, n, b"none"),
        Some(x) => signed(out, n, x.0),
    }
}

// ---- the end

fn ended(out: &mut [u8], n: usize, p: Phase) -> usize {
    let Phase::Ended(x) = p else {
        return text(out, n, b"\n");
    };
    let n = text(out, n, b" cause=");
    let n = text(out, n, cause(x));
    text(out, n, b"\n")
}

fn cause(x: Cause) -> &'static [u8] {
    match x {
        Cause::Finished => b"finished",
        Cause::Regressed => b"regressed",
        Cause::Beyond => b"beyond",
        Cause::AlreadyFinalized => b"already",
        Cause::Permanent => b"permanent",
        Cause::Exhausted => b"exhausted",
        Cause::GivenUp => b"givenup",
        Cause::StreamError => b"stream",
    }
}
