// The host: what it knows from answers and messages alone.
use bidi_write::{Break, Call, Cause, ChecksummedData, Refusal, Request};
use transport::Answer;

// The tasks of a day are numbered from 1: its events, then finalise, then close.
pub const EVENTS: u64 = 700;

// The verdict of a host that never gives up.
pub const GO_ON: u8 = 1;

// The session's phase.
#[derive(Clone, Copy, PartialEq)]
pub enum Phase {
    Live,
    Verdict,
    Connecting,
    Replay,
    Closing,
    Ended,
}

// What can go wrong.
#[derive(Clone, Copy)]
pub enum Trouble {
    Refused(Refusal),
    EndedEarly,
    // the desk waits with nothing on its way
    Stuck,
    TooManyCalls,
    // the copies leave no room for an event
    NoRoom,
    // the bytes released are not those appended
    Unsettled,
}

#[derive(Clone, Copy)]
pub struct Bank {
    // as the answers told it
    pub phase: Phase,
    pub trouble: Option<Trouble>,
    pub task: u64,
    // the event's bytes, and how many of them are taken
    pub length: usize,
    taken: usize,
    // the number of the waiter that the desk waits on, once it is made
    waiter: Option<u64>,
    pub completed: u64,
    // the largest size stated
    pub stated: u64,
    // the last request could not be sent, and the session has yet to be told
    pub unsent: bool,
    // today's figures
    pub bytes: u64,
    pub chunks: u64,
    pub own_flushes: u64,
    pub again: u64,
    pub failed_sends: u64,
}

impl Bank {
    pub fn new(trouble: Option<Trouble>) -> Bank {
        Bank {
            phase: Phase::Live,
            trouble,
            task: 0,
            length: 0,
            taken: 0,
            waiter: None,
            completed: 0,
            stated: 0,
            unsent: false,
            bytes: 0,
            chunks: 0,
            own_flushes: 0,
            again: 0,
            failed_sends: 0,
        }
    }

    // The next task, of so many bytes.
    pub fn begin(&mut self, length: usize) {
        self.task = self.task.wrapping_add(1);
        self.length = length;
        self.taken = 0;
        self.waiter = None;
    }

    // What is not yet taken of the event.
    pub fn left(&self) -> usize {
        self.length.saturating_sub(self.taken)
    }

    // Those that are done.
    pub fn events(&self) -> u64 {
        self.task.saturating_sub(1).min(EVENTS)
    }

    // The desk waits for an answer.
    pub fn waits(&self) -> bool {
        self.waiter.is_some_and(|n| self.completed < n)
    }

    // The desk has its answer.
    pub fn is_answered(&self) -> bool {
        self.waiter.is_some_and(|n| n <= self.completed)
    }

    // The bytes of events whose desk has its answer.
    pub fn answered(&self) -> u64 {
        if self.is_answered() {
            return self.bytes;
        }
        self.bytes.saturating_sub(self.taken as u64)
    }

    // Whether there is no call to make any more.
    pub fn is_over(&self) -> bool {
        self.trouble.is_some() || self.phase == Phase::Ended
    }

    // What went wrong today.
    pub fn verdict(&self) -> Result<(), Trouble> {
        match self.trouble {
            Some(trouble) => Err(trouble),
            None if self.phase == Phase::Ended => Ok(()),
            None => Err(Trouble::TooManyCalls),
        }
    }

    // A message states this size.
    pub fn told(&mut self, size: u64) {
        self.stated = self.stated.max(size);
    }

    // ---- calls

    // The host's own next call.
    pub fn call(&self) -> Call {
        if self.unsent {
            return Call::SendFailed;
        }
        match self.phase {
            Phase::Verdict => Call::Judge(GO_ON),
            Phase::Replay => Call::NextRequest,
            Phase::Closing => Call::Break(Break::EndOfStream),
            Phase::Live | Phase::Connecting | Phase::Ended => self.work(),
        }
    }

    fn work(&self) -> Call {
        if self.taken < self.length {
            return Call::Append;
        }
        if self.task <= EVENTS {
            return Call::Flush;
        }
        if self.task == EVENTS + 1 {
            return Call::Finalise;
        }
        Call::Close
    }

    // ---- answers

    pub fn heard(&mut self, a: Result<Answer, Refusal>) {
        match a {
            Err(x) => self.trouble = Some(Trouble::Refused(x)),
            Ok(Answer::Took(n, _)) => {
                self.taken = self.taken.wrapping_add(n);
                self.bytes = self.bytes.wrapping_add(n as u64);
            }
            Ok(Answer::Sends(_)) => {}
            Ok(Answer::Waits(_, n)) => self.waiter = Some(n),
            Ok(Answer::Completes(c)) => self.completing(c.waiters as u64),
            Ok(Answer::Attempt(_)) => self.phase = Phase::Verdict,
            Ok(Answer::Accepted) => self.accepted(),
            Ok(Answer::Done) => self.phase = Phase::Live,
            Ok(Answer::Ends(e)) => self.ends(e.cause),
        }
    }

    // A handshake leads to a replay.
    fn completing(&mut self, k: u64) {
        self.completed = self.completed.wrapping_add(k);
        if self.phase == Phase::Connecting {
            self.phase = Phase::Replay;
        }
    }

    // A failed send ends a replay; close leads to closing, a verdict to connecting, where a failed attempt stays.
    fn accepted(&mut self) {
        if self.unsent {
            self.unsent = false;
            self.phase = Phase::Live;
        } else if self.phase == Phase::Live {
            self.phase = Phase::Closing;
        } else {
            self.phase = Phase::Connecting;
        }
    }

    // Only a session whose object is finalised ends, and as finished.
    fn ends(&mut self, cause: Cause) {
        self.trouble = match cause {
            Cause::Finished if EVENTS + 1 < self.task => None,
            _ => Some(Trouble::EndedEarly),
        };
        self.phase = Phase::Ended;
    }

    // ---- requests

    pub fn sends(&mut self, r: Request, unsent: bool) {
        let n = length(r.data);
        self.unsent = unsent;
        self.failed_sends = self.failed_sends.wrapping_add(u64::from(unsent));
        if self.phase == Phase::Replay {
            self.again = self.again.wrapping_add(n);
        } else {
            self.counts(n, r.flush);
        }
    }

    // A request with data is a chunk; a flush that nobody waits for is the session's own.
    fn counts(&mut self, n: u64, flush: bool) {
        let own = flush && self.waiter.is_none();
        self.chunks = self.chunks.wrapping_add(u64::from(n != 0));
        self.own_flushes = self.own_flushes.wrapping_add(u64::from(own));
    }
}

fn length(d: Option<ChecksummedData>) -> u64 {
    match d {
        None => 0,
        Some(c) => c.length as u64,
    }
}
