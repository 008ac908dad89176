// A script: an opening and the calls behind it, up to EN. Each function says how much of the output waits, and breaks off where the run is over: at a second
// OP or a cut record.
use openings::Opened;
use std::ops::ControlFlow;
use trace_lines::answers::{answer, opening};
use trace_lines::states::state;
use trace_lines::writing::write;
use trace_records::Record;
use trace_records::input::Input;
use trace_records::opening::Opens;
use trace_text::text;
use transport::Session;

pub fn open(o: &Opens<'_>, store: &mut [u8], table: &mut [u64]) -> Opened {
    session::open(
        o.opening,
        store,
        table,
        o.bucket,
        o.object,
        o.write_handle,
        o.routing_token,
        o.response_handle,
        o.payload,
    )
}

pub fn play(
    input: &mut Input<'_>,
    out: &mut [u8],
    store: &mut [u8],
    table: &mut [u64],
    room: &mut [u8],
    o: Opened,
    n: usize,
) -> ControlFlow<usize, usize> {
    let n = opening(out, n, o.answer, o.released);
    match o.answer {
        Err(_) => pass(input, out, n),
        Ok(()) => follow(input, out, store, table, room, o.session, n),
    }
}

// The state, what is asked of the last request, the next call, its answer.
fn follow(
    input: &mut Input<'_>,
    out: &mut [u8],
    store: &mut [u8],
    table: &mut [u64],
    room: &mut [u8],
    mut s: Session,
    n: usize,
) -> ControlFlow<usize, usize> {
    let mut n = state_of(out, n, store, table, &s);
    // of the last accepted call
    let mut request = None;
    for _ in 0..u64::MAX {
        match input.record() {
            Some(Record::Write(length, data)) => {
                n = write(out, n, request, room, data, length);
            }
            Some(Record::Call(call, length)) => {
                let a = steps::step(&mut s, call, store, table, room, input.brought(length));
                n = answer(out, n, call, a, room);
                n = state_of(out, n, store, table, &s);
                // A refused call leaves the request of the one before.
                if a.is_ok() {
                    request = shown::handed(a);
                }
            }
            Some(Record::End) => return ControlFlow::Continue(text(out, n, b"\n")),
            Some(Record::Opening(_)) | None => return ControlFlow::Break(n),
        }
    }
    ControlFlow::Break(n)
}

// What a host sees of the session, and what else is in its record.
fn state_of(out: &mut [u8], n: usize, store: &[u8], table: &[u64], s: &Session) -> usize {
    state(
        out,
        n,
        store,
        table,
        &session::view(s),
        &session::spec(s),
        s,
    )
}

// After a refused opening there is no session: records up to EN print nothing.
fn pass(input: &mut Input<'_>, out: &mut [u8], n: usize) -> ControlFlow<usize, usize> {
    for _ in 0..u64::MAX {
        match input.record() {
            Some(Record::Call(_, _) | Record::Write(_, _)) => {}
            Some(Record::End) => return ControlFlow::Continue(text(out, n, b"\n")),
            Some(Record::Opening(_)) | None => break,
        }
    }
    ControlFlow::Break(n)
}
