// Makes every call that the records on standard input name, and prints after each what it answered and the whole state: docs/TRACE.md.
#![tactic(auto)]

mod script;

use script::{open, play};
use std::ops::ControlFlow;
use trace_records::Record;
use trace_records::fields::take;
use trace_records::input::Input;
use trace_records::opening::Opens;
use trace_text::{flush, text};

// An opening with six texts of 65,535 bytes, the longest record, has 393,300.
const INPUT: usize = 400000;

const OUTPUT: usize = 65536;

// What is there to lend.
const STORE: usize = 32768;

const SLOTS: usize = 64;

const ROOM: usize = 8192;

fn main() {
    let mut buffer = [0u8; INPUT];
    let mut out = [0u8; OUTPUT];
    let mut store = [0u8; STORE];
    let mut table = [0u64; SLOTS];
    let mut room = [0u8; ROOM];
    let mut input = Input::new(&mut buffer);
    let n = run(&mut input, &mut out, &mut store, &mut table, &mut room);
    flush(&out, n);
}

// Runs every script; says how much of the output waits. What there is to lend goes as three slices: three fields of a struct can't be lent to a call at once.
fn run(
    input: &mut Input<'_>,
    out: &mut [u8],
    store: &mut [u8],
    table: &mut [u64],
    room: &mut [u8],
) -> usize {
    let mut n = 0;
    for _ in 0..u64::MAX {
        match turn(input, out, store, table, room, n) {
            ControlFlow::Continue(waiting) => n = waiting,
            ControlFlow::Break(waiting) => return waiting,
        }
    }
    n
}

// A record outside of a script, or a script. It says how much of the output waits, and breaks off where the run is over.
fn turn(
    input: &mut Input<'_>,
    out: &mut [u8],
    store: &mut [u8],
    table: &mut [u64],
    room: &mut [u8],
    n: usize,
) -> ControlFlow<usize, usize> {
    match input.record() {
        Some(Record::Opening(length)) => begin(input, out, store, table, room, length, n),
        Some(Record::Call(_, _) | Record::Write(_, _)) => ControlFlow::Continue(n),
        Some(Record::End) => ControlFlow::Continue(text(out, n, b"\n")),
        None => ControlFlow::Break(n),
    }
}

// A script, with as much lent to its session as its opening says, whose fields have `length` bytes.
fn begin(
    input: &mut Input<'_>,
    out: &mut [u8],
    store: &mut [u8],
    table: &mut [u64],
    room: &mut [u8],
    length: usize,
    n: usize,
) -> ControlFlow<usize, usize> {
    let Some(o) = take::<Opens<'_>>(&mut input.brought(length)) else {
        return ControlFlow::Break(n);
    };
    let a = o.lent.store.min(store.len());
    let b = o.lent.slots.min(table.len());
    let c = o.lent.out.min(room.len());
    let store = &mut store[..a];
    let table = &mut table[..b];
    let opened = open(&o, store, table);
    play(input, out, store, table, &mut room[..c], opened, n)
}
