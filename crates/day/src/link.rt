// The link: with which messages it breaks, and how that looks to the host.
use crate::chance;

// What a break keeps from arriving.
#[derive(Clone, Copy)]
pub enum Lost {
    Chunk,
    Flush,
    Finish,
    Answer,
    Handshake,
}

// How a break or a failed attempt looks to the host.
#[derive(Clone, Copy)]
pub enum Look {
    EndOfStream,
    Error,
    Status,
    Aborted,
    // a status with a redirect's detail
    Rerouted,
    Redirect,
}

// "Redirects 1 to 3 turn 1 to 3 into continue."
const MOST_REDIRECTS: u64 = 3;

#[derive(Clone, Copy)]
pub struct Link {
    // still to come today: breaks, and about so many messages
    breaks: u64,
    pub messages: u64,
    // counts down to the message with which the next break comes, at 1; 0: not so soon
    soon: u64,
    // redirects since this was the largest size stated
    in_a_row: u64,
    stated: u64,
    // of the last break or failed attempt
    pub look: Look,
    // today's messages: their bytes, and the CRC32C of these
    pub bytes: u64,
    pub sum: u32,
    // today's figures
    pub broken: u64,
    pub redirects: u64,
    pub failed_attempts: u64,
}

impl Link {
    pub fn new(breaks: u64) -> Link {
        Link {
            breaks,
            messages: 1,
            soon: 0,
            in_a_row: 0,
            stated: 0,
            look: Look::EndOfStream,
            bytes: 0,
            sum: 0,
            broken: 0,
            redirects: 0,
            failed_attempts: 0,
        }
    }

    // Whether the next message does not arrive. Each of today's is about as likely, and all of today's breaks come.
    pub fn breaks_now(&self, key: u64) -> bool {
        self.breaks != 0 && (self.soon == 1 || chance::draw(key, 20, self.messages) < self.breaks)
    }

    // The modem board was handed a message.
    pub fn carried(&mut self, message: &[u8]) {
        self.bytes = self.bytes.wrapping_add(message.len() as u64);
        self.sum = crc32c::update(self.sum, message);
    }

    // A message arrived.
    pub fn passed(&mut self) {
        self.soon = self.soon.saturating_sub(1);
        self.messages = self.messages.saturating_sub(1).max(1);
    }

    // A message did not arrive. Now and then the next break comes soon.
    pub fn broken(&mut self, key: u64) {
        self.breaks = self.breaks.saturating_sub(1);
        self.broken = self.broken.wrapping_add(1);
        self.soon = chance::draw(key, 21, 18).saturating_sub(12);
    }

    // A break or a failed attempt: the session counts its redirects afresh once a larger size was stated.
    pub fn erred(&mut self, stated: u64, key: u64) {
        if self.stated < stated {
            self.stated = stated;
            self.in_a_row = 0;
        }
        self.look = match chance::draw(key, 22, 8) {
            0 => Look::EndOfStream,
            1 => Look::Error,
            2 => Look::Status,
            3 => Look::Aborted,
            4 => Look::Rerouted,
            _ if self.in_a_row == MOST_REDIRECTS => Look::Status,
            _ => Look::Redirect,
        };
        if let Look::Redirect = self.look {
            self.in_a_row = self.in_a_row.wrapping_add(1);
            self.redirects = self.redirects.wrapping_add(1);
        }
    }

    // An attempt to connect failed.
    pub fn failed(&mut self, stated: u64, key: u64) {
        self.erred(stated, key);
        self.failed_attempts = self.failed_attempts.wrapping_add(1);
    }
}
