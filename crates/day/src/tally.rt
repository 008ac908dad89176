// The figures of the days so far.
use crate::bank::Bank;
use crate::copies::Copies;
use crate::link::Link;
use crate::server::Server;
use crate::world::World;

#[derive(Clone, Copy, Default)]
pub struct Tally {
    pub events: u64,
    pub bytes: u64,
    pub chunks: u64,
    pub own_flushes: u64,
    pub waiters: u64,
    // events that the bank dropped, and how many of them before the desk had its answer
    pub dropped: u64,
    pub unanswered: u64,
    // the messages' bytes, and the CRC32C of these
    pub messages: u64,
    pub sum: u32,
    pub breaks: u64,
    pub redirects: u64,
    pub failed_attempts: u64,
    pub failed_sends: u64,
    pub again: u64,
    // what must be 0
    pub lost: u64,
    pub doubled: u64,
    pub misplaced: u64,
    pub cut_off: u64,
    pub unpersisted: u64,
    pub lacking: u64,
    // a day did not come to its end
    pub failed: bool,
}

impl Tally {
    // A day more. The object is held to what the bank appended.
    pub fn add(&mut self, w: &World) {
        self.add_bank(&w.bank);
        self.add_copies(&w.copies);
        self.add_link(&w.link);
        self.add_server(&w.server, w.bank.bytes);
        self.lost = self.lost.wrapping_add(w.early);
        self.failed = w.verdict().is_err();
    }

    fn add_bank(&mut self, b: &Bank) {
        self.events = self.events.wrapping_add(b.events());
        self.bytes = self.bytes.wrapping_add(b.bytes);
        self.chunks = self.chunks.wrapping_add(b.chunks);
        self.own_flushes = self.own_flushes.wrapping_add(b.own_flushes);
        self.waiters = self.waiters.wrapping_add(b.completed);
        self.failed_sends = self.failed_sends.wrapping_add(b.failed_sends);
        self.again = self.again.wrapping_add(b.again);
    }

    fn add_copies(&mut self, c: &Copies) {
        self.dropped = self.dropped.wrapping_add(c.dropped);
        self.unanswered = self.unanswered.wrapping_add(c.unanswered);
        self.unpersisted = self.unpersisted.wrapping_add(c.unpersisted);
        self.lacking = self.lacking.wrapping_add(c.lacking);
    }

    fn add_link(&mut self, l: &Link) {
        self.messages = self.messages.wrapping_add(l.bytes);
        self.sum = crc32c::combine(self.sum, l.sum, l.bytes);
        self.breaks = self.breaks.wrapping_add(l.broken);
        self.redirects = self.redirects.wrapping_add(l.redirects);
        self.failed_attempts = self.failed_attempts.wrapping_add(l.failed_attempts);
    }

    fn add_server(&mut self, v: &Server, bytes: u64) {
        self.lost = self.lost.wrapping_add(bytes.saturating_sub(v.persisted));
        self.doubled = self.doubled.wrapping_add(v.persisted.saturating_sub(bytes));
        self.misplaced = self.misplaced.wrapping_add(v.misplaced);
        self.cut_off = self.cut_off.wrapping_add(v.cut_off);
    }

    pub fn is_right(&self) -> bool {
        !self.failed
            && self.cut_off == 0
            && self.lost == 0
            && self.doubled == 0
            && self.misplaced == 0
            && self.unpersisted == 0
            && self.lacking == 0
    }
}
