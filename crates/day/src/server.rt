// The server and the present connection, by document 01's "Server rules". It sees requests and the bytes that they carry, and keeps of the bytes their
// number and sum.
ghost use Rattle.std.specs.Prelude.{◌≤◌, length};
ghost use Rattle.bidi_write.specs.View.{length_of};

use crate::{chance, journal};
use bidi_write::{ChecksummedData, Request};

// What a message states: nothing, a size, a size in a resource, or one that is finalised.
#[derive(Clone, Copy)]
pub enum Said {
    Nothing,
    Size(u64),
    Resource(u64),
    Finalised(u64),
}

impl Said {
    pub fn size(self) -> u64 {
        match self {
            Said::Nothing => 0,
            Said::Size(n) | Said::Resource(n) | Said::Finalised(n) => n,
        }
    }
}

#[derive(Clone, Copy)]
pub struct Server {
    // the key of the journal that the bytes must be of
    journal: u64,
    // "The server holds persisted bytes (the object) and a tail."
    pub persisted: u64,
    tail: u64,
    // of the persisted bytes
    sum: u32,
    finalised: bool,
    // a flush was asked for, and no message has yet said that all is persisted
    owes: bool,
    // the connection is not cut; every request on it has arrived
    pub alive: bool,
    pub lossless: bool,
    // on its way to the host
    pub message: Option<Said>,
    // bytes of the tail that the last cut lost
    pub lost: u64,
    // bytes that joined the tail and are not the journal's at their offset; connections cut for a request though they had lost nothing
    pub misplaced: u64,
    pub cut_off: u64,
}

impl Server {
    pub fn new(journal: u64) -> Server {
        Server {
            journal,
            persisted: 0,
            tail: 0,
            sum: 0,
            finalised: false,
            owes: false,
            alive: true,
            lossless: true,
            message: None,
            lost: 0,
            misplaced: 0,
            cut_off: 0,
        }
    }

    // ---- a request is taken

    pub fn take(&mut self, r: Request, out: &[u8], key: u64)
        requires { length_of r.«data» ≤ length out.now }
    {
        let at = bidi_write::to_nat(r.write_offset);
        match r.data {
            None => self.take_bare(r.finish_write, at, r.object_checksums, key),
            Some(c) => self.take_chunk(c, at, r.flush, out, key),
        }
    }

    // "A chunk joins the tail if its offset is the end of both and its sum is right, else the connection is cut."
    fn take_chunk(&mut self, c: ChecksummedData, at: u64, flush: bool, out: &[u8], key: u64)
        requires { c.length ≤ length out.now }
    {
        let bytes = &out[..c.length];
        if at != self.end() || c.crc32c != crc32c::crc32c(bytes) {
            self.cuts(key);
            return;
        }
        let wrong = journal::wrong(bytes, self.journal, at);
        self.misplaced = self.misplaced.wrapping_add(wrong);
        self.tail = self.tail.wrapping_add(bytes.len() as u64);
        if flush {
            self.flush(key);
        }
    }

    // "A request without data has its offset checked only with finish."
    fn take_bare(&mut self, finishes: bool, at: u64, sum: Option<u32>, key: u64) {
        if finishes {
            self.finish(at, sum, key);
        } else {
            self.flush(key);
        }
    }

    fn end(&self) -> u64 {
        self.persisted.wrapping_add(self.tail)
    }

    // A flush persists any front of the tail, mostly all of it, and is answered.
    fn flush(&mut self, key: u64) {
        self.persist(chance::part_or_all(key, 1, self.tail));
        self.owes = true;
        self.answer(key);
    }

    // "finish, which persists all and finalises if offset and a given sum are right, else cuts"
    fn finish(&mut self, at: u64, sum: Option<u32>, key: u64) {
        if at != self.end() || !is_right(sum, self.sum_with(self.tail)) {
            self.cuts(key);
            return;
        }
        self.persist(self.tail);
        self.finalised = true;
        self.owes = true;
        self.answer(key);
    }

    // "Any front part of the tail may become persisted": n bytes of it.
    fn persist(&mut self, n: u64) {
        self.sum = self.sum_with(n);
        self.persisted = self.persisted.wrapping_add(n);
        self.tail = self.tail.saturating_sub(n);
    }

    // The sum of the persisted bytes and n of the tail.
    fn sum_with(&self, n: u64) -> u32 {
        journal::sum_on(self.sum, self.journal, self.persisted, n)
    }

    // ---- messages

    // Between two calls of the host the server may persist some of the tail, answers what it owes, and now and then says something unasked. While the
    // desk waits it finishes what it was asked.
    pub fn serve(&mut self, waits: bool, key: u64) {
        if !self.alive || self.message.is_some() {
            return;
        }
        if waits {
            self.persist(self.tail);
        } else if chance::one_in(key, 4, 8) {
            self.message = Some(Said::Nothing);
        } else if chance::one_in(key, 5, 8) {
            self.persist(chance::part(key, 6, self.tail));
        }
        self.answer(key);
    }

    fn answer(&mut self, key: u64) {
        if self.message.is_none() && self.owes {
            self.message = Some(self.says(key));
            self.owes = self.tail != 0;
        }
    }

    // ---- the connection

    // A cut "loses every message not yet taken and any end of the tail, from none of it to all, but no persisted byte"; what it leaves of the tail is
    // persisted by the next connection.
    pub fn cut(&mut self, key: u64) {
        if !self.alive {
            return;
        }
        self.persist(chance::part(key, 8, self.tail));
        self.lost = self.tail;
        self.tail = 0;
        self.owes = false;
        self.message = None;
        self.alive = false;
        self.lossless = false;
    }

    // A request did not arrive: the connection is cut, or yet carries what comes next.
    pub fn breaks(&mut self, carries: bool, key: u64) {
        if carries {
            self.lossless = false;
        } else {
            self.cut(key);
        }
    }

    // The server cuts the connection for a request: none that the host sends on one that lost nothing.
    fn cuts(&mut self, key: u64) {
        self.cut_off = self.cut_off.wrapping_add(u64::from(self.lossless));
        self.cut(key);
    }

    // An accepted handshake begins the next connection. It may leave unsaid that the object is finalised.
    pub fn greet(&mut self, key: u64) -> Said {
        self.alive = true;
        self.lossless = true;
        if chance::one_in(key, 11, 2) {
            return self.says(key);
        }
        Said::Size(self.persisted)
    }

    // ---- what the server says

    // "Every stated size is true when sent, and a message is finalised only once the object is."
    fn says(&self, key: u64) -> Said {
        if self.finalised {
            Said::Finalised(self.persisted)
        } else if chance::one_in(key, 10, 4) {
            Said::Resource(self.persisted)
        } else {
            Said::Size(self.persisted)
        }
    }
}

fn is_right(given: Option<u32>, sum: u32) -> bool {
    given.is_none_or(|x| x == sum)
}
