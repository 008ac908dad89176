// "A bank holds its own copy of each event until the hub no longer needs it": until all of its bytes are released.
ghost use Rattle.std.specs.Prelude.{◌<◌, ◌≤◌, length};

use crate::journal;

const RING: usize = 32768;

// An event has at most so many bytes, and so many events surely fit.
pub const LONGEST: usize = 9000;

const MOST: usize = 3;

#[derive(Clone, Copy)]
pub struct Copies {
    // the copies' bytes, each at the remainder of its offset
    ring: [u8; RING],
    // where events end, each at the remainder of its number; those kept come behind those dropped
    ends: [u64; MOST],
    kept: u64,
    // of the bytes taken since the opening: those released, those of events dropped
    released: u64,
    gone: u64,
    // today's figures: events dropped, and how many of them before the desk had its answer
    pub dropped: u64,
    pub unanswered: u64,
    // events dropped before they were persisted; bytes handed out that the bank no longer had
    pub unpersisted: u64,
    pub lacking: u64,
}

impl Copies {
    pub fn new(released: usize) -> Copies {
        Copies {
            ring: [0; RING],
            ends: [0; MOST],
            kept: 0,
            released: released as u64,
            gone: 0,
            dropped: 0,
            unanswered: 0,
            unpersisted: 0,
            lacking: 0,
        }
    }

    pub fn has_room(&self) -> bool {
        self.kept < MOST as u64
    }

    // An event comes, the journal's bytes between two offsets.
    pub fn keep(&mut self, journal: u64, from: u64, to: u64) {
        for at in from..to {
            self.ring[place(at)] = journal::byte_at(journal, at);
        }
        let i = slot(self.dropped.wrapping_add(self.kept));
        self.ends[i] = to;
        self.kept = self.kept.wrapping_add(1);
    }

    // The n bytes from an offset on, in one piece; none where they do not fit.
    pub fn read<'a>(&self, at: u64, n: usize, event: &'a mut [u8]) -> &'a [u8]
        ensures { length result.now ≤ length event.old }
    {
        let Some(event) = event.get_mut(..n) else {
            return &[];
        };
        for (i, byte) in event.iter_mut().enumerate() {
            *byte = self.ring[place(at.wrapping_add(i as u64))];
        }
        event
    }

    // An answer says that so many bytes were released.
    pub fn told(&mut self, n: usize) {
        self.released = self.released.wrapping_add(n as u64);
    }

    // Drops, oldest first, every event that may go. So many bytes have their answer, so many are persisted.
    pub fn drop_released(&mut self, answered: u64, persisted: u64) {
        for _ in 0..self.kept {
            if !self.may_drop() {
                break;
            }
            self.drop_oldest(answered, persisted);
        }
    }

    // Whether all bytes of the oldest event are released.
    fn may_drop(&self) -> bool {
        self.kept != 0 && self.oldest() <= self.released
    }

    // Where the oldest event ends.
    fn oldest(&self) -> u64 {
        self.ends[slot(self.dropped)]
    }

    fn drop_oldest(&mut self, answered: u64, persisted: u64) {
        let end = self.oldest();
        for at in self.gone..end {
            self.ring[place(at)] = 0;
        }
        self.gone = end;
        self.kept = self.kept.saturating_sub(1);
        self.dropped = self.dropped.wrapping_add(1);
        self.unanswered = self.unanswered.wrapping_add(u64::from(answered < end));
        self.unpersisted = self.unpersisted.wrapping_add(u64::from(persisted < end));
    }

    // The session hands out bytes from an offset on: it may send again what it has not released.
    pub fn handed(&mut self, bytes: &[u8], at: u64) {
        for (i, byte) in bytes.iter().enumerate() {
            let lacks = self.lacks(*byte, at.wrapping_add(i as u64));
            self.lacking = self.lacking.wrapping_add(u64::from(lacks));
        }
    }

    // Whether the bank no longer has this byte at this offset.
    fn lacks(&self, byte: u8, at: u64) -> bool {
        at < self.gone || self.ring[place(at)] != byte
    }

    // Whether every event is dropped, and as many bytes were released as appended.
    pub fn is_settled(&self, bytes: u64) -> bool {
        self.kept == 0 && self.released == bytes
    }
}

fn slot(event: u64) -> usize
    ensures { result < 3 }
{
    (event % MOST as u64) as usize
}

fn place(at: u64) -> usize
    ensures { result < 32768 }
{
    (at % RING as u64) as usize
}
