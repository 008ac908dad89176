// What a person reads.
use crate::bank::{EVENTS, Trouble};
use crate::link::{Look, Lost};
use crate::tally::Tally;
use bidi_write::refusal_number;

const STDOUT_FILENO: i32 = 1;

pub fn text(bytes: &[u8]) {
    io::write_all(STDOUT_FILENO, bytes);
}

pub fn number(n: u64) {
    io::print_decimal(STDOUT_FILENO, n);
}

pub fn usage() {
    text(
        b"usage: day [seed [days [breaks a day]]]: seed of at most 18 digits, days 1 to 10000, breaks 0 to 1000\n",
    );
}

// ---- through the day

// The time of day of an event: they come evenly.
fn time(event: u64) {
    let minutes = event % 1000 * 1440 / EVENTS;
    two_digits(minutes / 60);
    text(b":");
    two_digits(minutes % 60);
    text(b" ");
}

fn two_digits(n: u64) {
    if n < 10 {
        text(b"0");
    }
    number(n);
}

fn counted(n: u64, what: &[u8]) {
    number(n);
    text(what);
}

pub fn progress(event: u64, persisted: u64, breaks: u64) {
    time(event);
    counted(event, b" events, ");
    counted(persisted, b" bytes persisted, ");
    counted(breaks, b" breaks\n");
}

// A break's line begins where it falls, with what did not arrive.
pub fn falls(event: u64, n: u64, lost: Lost) {
    time(event);
    text(b"break ");
    number(n);
    match lost {
        Lost::Chunk => text(b": a chunk lost"),
        Lost::Flush => text(b": a flush lost"),
        Lost::Finish => text(b": a finish lost"),
        Lost::Answer => text(b": an answer lost"),
        Lost::Handshake => text(b": a handshake lost"),
    }
}

// The host was told at once, or not; in a replay, or not.
pub fn how(unsent: bool, again: bool) {
    if unsent {
        text(b", its send reported failed");
    }
    if again {
        text(b", in a replay");
    }
}

// It ends where the host sees it.
pub fn seen(lost: u64, look: Look) {
    text(b", ");
    counted(lost, b" bytes of the tail lost, ");
    match look {
        Look::EndOfStream => text(b"end of stream\n"),
        Look::Error => text(b"error\n"),
        Look::Status => text(b"status\n"),
        Look::Aborted => text(b"aborted\n"),
        Look::Rerouted => text(b"status with a route\n"),
        Look::Redirect => text(b"redirect\n"),
    }
}

// ---- the figures

pub fn figures(t: &Tally) {
    work(t);
    link(t);
    faults(t);
}

fn work(t: &Tally) {
    figure(b"events", t.events);
    figure(b"bytes", t.bytes);
    figure(b"chunks", t.chunks);
    figure(b"flushes of the session's own", t.own_flushes);
    figure(b"waiters completed", t.waiters);
    figure(b"events dropped by the bank", t.dropped);
    figure(b"dropped before the desk had its answer", t.unanswered);
}

fn link(t: &Tally) {
    figure(b"bytes of messages", t.messages);
    figure(b"their CRC32C", t.sum as u64);
    figure(b"breaks", t.breaks);
    figure(b"redirects", t.redirects);
    figure(b"failed attempts to connect", t.failed_attempts);
    figure(b"sends reported failed", t.failed_sends);
    figure(b"bytes sent again", t.again);
}

fn faults(t: &Tally) {
    figure(b"bytes lost", t.lost);
    figure(b"bytes doubled", t.doubled);
    figure(b"bytes out of place", t.misplaced);
    figure(
        b"connections cut by the server that had lost nothing",
        t.cut_off,
    );
    figure(b"events dropped before they were persisted", t.unpersisted);
    figure(b"bytes sent that the bank had dropped", t.lacking);
}

pub fn figure(name: &[u8], n: u64) {
    text(name);
    text(b": ");
    counted(n, b"\n");
}

pub fn outcome(right: bool) {
    if right {
        text(b"OK\n");
    } else {
        text(b"NOT OK\n");
    }
}

// ---- what went wrong

pub fn trouble(t: Trouble) {
    match t {
        Trouble::Refused(x) => figure(b"a call was refused, number", refusal_number(x)),
        Trouble::EndedEarly => text(b"the session ended too early\n"),
        Trouble::Stuck => text(b"the desk waits, and nothing is on its way\n"),
        Trouble::TooManyCalls => text(b"too many calls\n"),
        Trouble::NoRoom => text(b"the copies leave no room for an event\n"),
        Trouble::Unsettled => text(b"the bytes released are not those appended\n"),
    }
}
