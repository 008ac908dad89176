// The boundary cases that no record of the program trace can say, run: numbers at the ends of 64 and of 32 bits, bytes that come beside an opening and
// are not given, and calls after a refused opening. For each its name, and a line for each call as the bench program prints it.
#![tactic(auto)]

use bench_lines::Mark;
use bidi_write::{Break, Call, Generation, Offset, Response, WriteStatus};
use openings::Opening;
use text::Line;

const STDOUT_FILENO: i32 = 1;

fn main() {
    let long = [b'x'; 1025];
    run(b"C 2^64 - 1", opens(usize::MAX, 9));
    run(b"capacity 2^64 - 1", opens(4, usize::MAX));
    run(
        b"handle 1025, not given",
        Case {
            write_handle: &long,
            ..opens(4, 9)
        },
    );
    run(
        b"token 513, not given",
        Case {
            routing_token: &long[..513],
            ..opens(4, 9)
        },
    );
    run(b"calls after a refused opening", refused(b"afwrbvhn"));
    run(
        b"2^64 - 1 waiters made",
        forged(u64::MAX - 1, 0, b"ffwaffrf"),
    );
    run(b"2^64 - 1 set", forged(u64::MAX, 0, b"f"));
    run(b"attempt 2^32 - 2", forged(0, u32::MAX - 1, b"bvhnbvhnb"));
    run(b"attempt 2^32 - 1", forged(0, u32::MAX, b"afbvhnnnbvHnb"));
}

// ---- cases

// An opening, and the calls of its session, in which so many waiters were made and so many attempts failed.
#[derive(Clone, Copy)]
struct Case<'a> {
    opening: Opening,
    write_handle: &'a [u8],
    routing_token: &'a [u8],
    payload: &'a [u8],
    made: u64,
    attempts: u32,
    // a letter for each
    calls: &'a [u8],
}

// An opening alone: a spec in the Append form, and a response that states P 0.
fn opens<'a>(limit: usize, capacity: usize) -> Case<'a> {
    let opening = Opening {
        limit,
        capacity: Some(capacity),
        append: true,
        generation: Generation(1),
        has_write_handle: false,
        has_routing_token: false,
        if_metageneration_match: None,
        if_metageneration_not_match: None,
        response: sized(0),
        checksum: None,
        has_payload: false,
        last_persisted_size: Offset(0),
    };
    Case {
        opening,
        write_handle: b"",
        routing_token: b"",
        payload: b"",
        made: 0,
        attempts: 0,
        calls: b"",
    }
}

// Calls after an opening whose payload is longer than C.
fn refused(calls: &[u8]) -> Case<'_> {
    let mut case = opens(4, 9);
    case.opening.has_payload = true;
    case.payload = b"abcde";
    case.calls = calls;
    case
}

fn forged(made: u64, attempts: u32, calls: &[u8]) -> Case<'_> {
    Case {
        made,
        attempts,
        calls,
        ..opens(4, 9)
    }
}

// ---- the run

// Opens a session and makes its calls. What the opening counts from 0 is set to the case's numbers. The store is the shortest for C 4 and capacity 9.
fn run(name: &[u8], case: Case<'_>) {
    let mut store = [0u8; 15];
    let mut table = [0u64; 8];
    let mut out = [0u8; 4];
    write(name);
    write(b"\n");
    let opened = session::open(
        case.opening,
        &mut store,
        &mut table,
        b"projects/_/buckets/b",
        b"o",
        case.write_handle,
        case.routing_token,
        b"",
        case.payload,
    );
    say(bench_lines::opening_line(opened.answer));
    let mut s = opened.session;
    s.made = case.made;
    s.worker.connector.attempt_count = case.attempts;
    for letter in case.calls {
        let (call, mark) = call_of(*letter);
        let answer = steps::step(&mut s, call, &mut store, &mut table, &mut out, b"a");
        say(bench_lines::line(mark, answer));
    }
    write(b"\n");
}

// A call is a letter. An append has one byte, a response the size 0, and a handshake 0, or 1 where the letter is large.
fn call_of(letter: u8) -> (Call, Mark) {
    match letter {
        b'a' => (Call::Append, Mark::Append),
        b'f' => (Call::Flush, Mark::Flush),
        b'w' => (Call::Finalise, Mark::Finalise),
        b'r' => (Call::Response(sized(0)), Mark::Response),
        b'b' => (Call::Break(Break::EndOfStream), Mark::Break),
        b'v' => (Call::Judge(1), Mark::Verdict),
        b'h' => (Call::Handshake(sized(0)), Mark::Handshake),
        b'H' => (Call::Handshake(sized(1)), Mark::Handshake),
        _ => (Call::NextRequest, Mark::Next),
    }
}

fn sized(n: i64) -> Response {
    Response {
        write_status: Some(WriteStatus::PersistedSize(Offset(n))),
        has_write_handle: false,
    }
}

// ---- output

fn say(line: Line) {
    write(&line.bytes[..line.end()]);
}

fn write(text: &[u8]) {
    io::write_all(STDOUT_FILENO, text);
}
