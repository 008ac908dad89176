// Ported from google-cloud-storage 1.21.0, src/storage/bidi_write/transport.rs, Copyright 2026 Google LLC (Apache-2.0); changed: no tasks, channels or heap.
// The session by value: its record and answers, what every call shares, and close. The other calls are in crates above this one.
#![tactic(auto)]

pub mod close;
pub mod guard;
pub mod parts;
pub mod phases;

use bidi_write::{Cause, Offset, Request};
use worker::Worker;

// How far a replay has come: the next request, and the bytes of the chunks before it.
#[derive(Clone, Copy)]
pub struct Cursor {
    pub next: usize,
    pub bytes: usize,
}

// A verdict is awaited on a redirect or not.
#[derive(Clone, Copy)]
pub enum Phase {
    Live,
    Closing,
    Connecting,
    Verdict(bool),
    Replay(Cursor),
    Ended(Cause),
}

// What the last accepted call sent.
#[derive(Clone, Copy)]
pub enum Sent {
    Nothing,
    Request,
    BareFlush,
}

#[derive(Clone, Copy)]
pub struct Session {
    // the chunk limit in bytes
    pub limit: usize,
    // of the chunk table
    pub slots: usize,
    pub phase: Phase,
    pub sent: Sent,
    // waiters made so far
    pub made: u64,
    pub write_offset: Offset,
    pub running_crc32c: Option<u32>,
    // bytes held, which lie behind the stored ones
    pub held: usize,
    pub worker: Worker,
}

// Waiters completed, lowest numbers first, bytes released, and a bare flush.
#[derive(Clone, Copy)]
pub struct Completed {
    pub waiters: usize,
    pub released: usize,
    pub request: Option<Request>,
}

// Why a session ended, the waiters completed and the bytes released before, and the waiters that failed or were dropped.
#[derive(Clone, Copy)]
pub struct Ending {
    pub cause: Cause,
    pub completed: usize,
    pub released: usize,
    pub failed: usize,
}

// What an accepted call answers.
#[derive(Clone, Copy)]
pub enum Answer {
    // append: bytes taken, and the request of the chunk that was cut
    Took(usize, Option<Request>),
    // flush, finalise: held bytes were cut, call again; next request: the one to send
    Sends(Request),
    // flush, finalise: the request, and the number of the waiter made
    Waits(Request, u64),
    // response, handshake
    Completes(Completed),
    // break: the attempt number, 0 on a redirect
    Attempt(u32),
    // close, a verdict or failed attempt that goes on, a send reported failed
    Accepted,
    // next request: the replay is done
    Done,
    // the session ended
    Ends(Ending),
}

// What an accepted call leaves and answers. A refused one leaves the session as it was.
#[derive(Clone, Copy)]
pub struct Outcome {
    pub session: Session,
    pub answer: Answer,
}
