// The host, the link and the server together: what happens up to the host's next call, and what its answer leads to.
ghost use Rattle.std.specs.Prelude.{◌≤◌, length};
ghost use Rattle.bidi_write.specs.View.{length_of};
ghost use Rattle.transport.specs.View.{sent_length};

use crate::bank::{Bank, EVENTS, GO_ON, Phase, Trouble};
use crate::copies::{Copies, LONGEST};
use crate::link::{Link, Lost};
use crate::server::{Said, Server};
use crate::{chance, message, print};
use bidi_write::{Call, Refusal, Request};
use transport::Answer;

#[derive(Clone, Copy)]
pub struct World {
    // of what is drawn next, and of the journal
    key: u64,
    journal: u64,
    pub bank: Bank,
    pub copies: Copies,
    pub link: Link,
    pub server: Server,
    // bytes whose waiter was completed before they were persisted
    pub early: u64,
}

impl World {
    // The day before its first task, so that `begin` comes next. Nothing is done to it here: it is large, and is made where it stays.
    pub fn new(seed: u64, breaks: u64, a: Result<(), Refusal>, released: usize) -> World {
        let journal = chance::draw(seed, 50, 4294967296);
        World {
            key: chance::draw(seed, 51, 4294967296),
            journal,
            bank: Bank::new(a.err().map(Trouble::Refused)),
            copies: Copies::new(released),
            link: Link::new(breaks),
            server: Server::new(journal),
            early: 0,
        }
    }

    // What went wrong today.
    pub fn verdict(&self) -> Result<(), Trouble> {
        self.bank.verdict()?;
        if self.copies.is_settled(self.bank.bytes) {
            Ok(())
        } else {
            Err(Trouble::Unsettled)
        }
    }

    // ---- the day's tasks

    // The next task: an event of about 6,000 bytes, or at the end none.
    pub fn begin(&mut self) {
        let done = self.bank.task;
        let length = event_length(self.key, done);
        self.bank.begin(length);
        self.link.messages = messages_left(done);
        if length != 0 {
            self.keep(length);
        }
    }

    // The bank keeps a copy of the event.
    fn keep(&mut self, length: usize) {
        if !self.copies.has_room() {
            self.bank.trouble = Some(Trouble::NoRoom);
            return;
        }
        let journal = self.journal;
        let from = self.bank.bytes;
        self.copies
            .keep(journal, from, from.wrapping_add(length as u64));
    }

    // A task ends with the completion of its waiter. Then "the base and every byte taken before the call that made it are persisted".
    fn work(&mut self) {
        if !self.bank.is_answered() {
            return;
        }
        let lacking = self.bank.bytes.saturating_sub(self.server.persisted);
        self.early = self.early.wrapping_add(lacking);
        if self.bank.task % 100 == 0 {
            print::progress(self.bank.task, self.server.persisted, self.link.broken);
        }
        self.begin();
    }

    // ---- the next call

    pub fn next(&mut self) -> Call {
        self.work();
        self.key = chance::next(self.key);
        match self.bank.phase {
            _ if self.bank.unsent => self.bank.call(),
            Phase::Connecting => self.dial(),
            Phase::Live => self.live(),
            _ => self.bank.call(),
        }
    }

    // While live the host looks for messages and breaks when it waits, and now and then before. A desk that waits with nothing on its way waits for ever.
    fn live(&mut self) -> Call {
        let key = self.key;
        let waits = self.bank.waits();
        if !waits && chance::one_in(key, 41, 2) {
            return self.bank.call();
        }
        self.server.serve(waits, key);
        if !self.server.lossless {
            return self.see_break();
        }
        if let Some(said) = self.server.message {
            return self.receive(said);
        }
        if waits {
            self.bank.trouble = Some(Trouble::Stuck);
        }
        self.bank.call()
    }

    // The message arrives, or a break comes first.
    fn receive(&mut self, said: Said) -> Call {
        if self.link.breaks_now(self.key) {
            self.broken(Lost::Answer);
            return self.see_break();
        }
        self.server.message = None;
        self.told(said);
        Call::Response(message::response(said))
    }

    // A message arrived.
    fn told(&mut self, said: Said) {
        self.bank.told(said.size());
        self.link.passed();
    }

    // A break falls on a message.
    fn broken(&mut self, lost: Lost) {
        let key = self.key;
        self.link.broken(key);
        print::falls(self.bank.events(), self.link.broken, lost);
    }

    // The host sees that the connection is down, or takes it down.
    fn see_break(&mut self) -> Call {
        let key = self.key;
        let stated = self.bank.stated;
        self.server.cut(key);
        self.link.erred(stated, key);
        print::seen(self.server.lost, self.link.look);
        Call::Break(message::stream_break(self.link.look))
    }

    // A break while connecting, an attempt that fails by itself, or the handshake.
    fn dial(&mut self) -> Call {
        let key = self.key;
        if self.link.breaks_now(key) {
            self.broken(Lost::Handshake);
            let call = self.fail();
            print::seen(0, self.link.look);
            return call;
        }
        if chance::one_in(key, 42, 4) {
            return self.fail();
        }
        // "An accepted handshake begins the next connection, with no tail, and states the true size."
        let said = self.server.greet(key);
        self.told(said);
        Call::Handshake(message::response(said))
    }

    fn fail(&mut self) -> Call {
        let key = self.key;
        let stated = self.bank.stated;
        self.link.failed(stated, key);
        Call::FailedAttempt(message::stream_break(self.link.look), GO_ON)
    }

    // ---- its answer

    // The modem board gets the request's message.
    pub fn heard(&mut self, a: Result<Answer, Refusal>, out: &[u8], message: &mut [u8])
        requires { sent_length a ≤ length out.now }
    {
        self.noted(a);
        let Some(request) = shown::handed(a) else {
            return;
        };
        match wire::write(request, out, message) {
            Ok(n) => {
                self.link.carried(&message[..n]);
                self.send(request, out);
            }
            Err(x) => self.bank.trouble = Some(Trouble::Refused(x)),
        }
    }

    // The bank notes the answer, and drops the copies that it may.
    fn noted(&mut self, a: Result<Answer, Refusal>) {
        self.bank.heard(a);
        self.copies.told(shown::released(a));
        let answered = self.bank.answered();
        let persisted = self.server.persisted;
        self.copies.drop_released(answered, persisted);
    }

    // The host "sends each request once, on the present connection, or reports it failed". What is sent on a connection that was cut is lost with it.
    fn send(&mut self, r: Request, out: &[u8])
        requires { length_of r.«data» ≤ length out.now }
    {
        let key = self.key;
        self.compare(r, out);
        if !self.server.alive {
            self.bank.sends(r, chance::one_in(key, 43, 2));
        } else if self.server.lossless && self.link.breaks_now(key) {
            self.break_on(r);
        } else {
            self.server.take(r, out, key);
            self.link.passed();
            self.bank.sends(r, false);
        }
    }

    // Every chunk is held to the bank's copies, those sent again too.
    fn compare(&mut self, r: Request, out: &[u8])
        requires { length_of r.«data» ≤ length out.now }
    {
        if let Some(c) = r.data {
            let at = bidi_write::to_nat(r.write_offset);
            self.copies.handed(&out[..c.length], at);
        }
    }

    // The request is lost silently, or reported as not sent; then the connection may yet carry what comes next.
    fn break_on(&mut self, r: Request) {
        self.broken(lost(r));
        let key = self.key;
        let way = chance::draw(key, 44, 3);
        let unsent = way != 0;
        print::how(unsent, self.bank.phase == Phase::Replay);
        self.server.breaks(way == 2, key);
        self.bank.sends(r, unsent);
    }
}

fn event_length(key: u64, done: u64) -> usize {
    if EVENTS <= done {
        return 0;
    }
    let n = chance::draw(key, 40, 6001).wrapping_add(3000) as usize;
    n.min(LONGEST)
}

// About: two chunks, a flush and three messages for each event, a finish and its answer.
fn messages_left(done: u64) -> u64 {
    EVENTS.saturating_sub(done) * 6 + 2
}

fn lost(r: Request) -> Lost {
    match r.data {
        Some(_) => Lost::Chunk,
        None if r.finish_write => Lost::Finish,
        None => Lost::Flush,
    }
}
