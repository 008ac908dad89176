// The run over bytes at hand: lines for the records in them, as far as the text has room.
ghost use Rattle.std.specs.Prelude.{◌≡◌, ◌≤◌, length, drop};
ghost use Rattle.transport.specs.Valid.{Valid};
ghost use Rattle.bench_turns.specs.Turn.{Lent};
ghost use Rattle.bench_run.specs.Turn.{Ready};
ghost use Rattle.bench_run.specs.Run.{FirstIs, AfterOpening, Begins, Plays};

use crate::gather::put;
use crate::turns::{Next, Turn, after, found, next_turn, resume};
use bench_records::Record;
use bidi_write::{Offset, Refusal};
use text::MOST;
use transport::Session;

// The session, what is to be done next, with the bytes at hand from this one on, and how much of the text is printed.
#[derive(Clone, Copy)]
pub struct Played {
    pub session: Session,
    pub turn: Turn,
    pub at: usize,
    pub used: usize,
}

// An opening with C, capacity and P, of so many bytes.
#[derive(Clone, Copy)]
pub struct First {
    pub limit: usize,
    pub capacity: usize,
    pub size: Offset,
    pub taken: usize,
}

// "Another first record, or a cut or unknown one, ends the run": a session of no chunk limit, which is refused, stands for none.
pub fn begin(input: &[u8], store: &mut [u8], table: &mut [u64], text: &mut [u8]) -> Played
    requires lent { Lent store.old table.old }
    requires in_bounds { 96 ≤ length text.old }
    ensures { Begins input.now text.old result store.new table.new text.new }
{
    let Some(first) = first_record(input) else {
        let r = bench_turns::open(0, 0, Offset(0), store, table);
        return Played {
            session: r.session,
            turn: Turn::End,
            at: 0,
            used: 0,
        };
    };
    let r = bench_turns::open(first.limit, first.capacity, first.size, store, table);
    let used = put(text, 0, bench_lines::opening_line(r.answer));
    let next = opened(r.answer, input, first.taken);
    Played {
        session: r.session,
        turn: next.turn,
        at: next.at,
        used,
    }
}

fn first_record(input: &[u8]) -> Option<First>
    ensures { FirstIs result input.now }
{
    match bench_records::read(input) {
        Ok((Record::Open(limit, capacity, size), taken)) => Some(First {
            limit,
            capacity,
            size,
            taken,
        }),
        Ok((Record::Call(_), _)) => None,
        Err(_) => None,
    }
}

// What follows an opening of n bytes: "a refused OP ends the run".
fn opened(a: Result<(), Refusal>, input: &[u8], n: usize) -> Next
    requires { n ≤ length input.now }
    ensures { AfterOpening a (drop n input.now) input.now result }
{
    match a {
        Err(_) => found(n, Turn::End),
        Ok(()) => {
            let next = next_turn(&input[n..]);
            found(n + next.at, next.turn)
        }
    }
}

// Turns, until the run ends, the bytes at hand cut a record, or the text has no room for another line.
pub fn play(
    s: Session,
    t: Turn,
    input: &[u8],
    store: &mut [u8],
    table: &mut [u64],
    out: &mut [u8],
    text: &mut [u8],
) -> Played
    requires valid { Valid s store.old table.old }
    requires out_len { length out.old ≡ 8192 }
    requires ready { Ready t (length input.now) }
    ensures { Plays t input.now s store.old table.old text.old result store.new table.new text.new }
{
    let next = resume(t, input);
    let mut p = Played {
        session: s,
        turn: next.turn,
        at: next.at,
        used: 0,
    };
    // no index is counted: p tells how far it has come
    while text.len() - p.used >= MOST {
        let Turn::Call(c, n) = p.turn else {
            break;
        };
        let data = &input[p.at..p.at + n];
        let mut session = p.session;
        let answer = bench_turns::call(&mut session, c, data, store, table, out);
        let used = put(text, p.used, bench_turns::line(c, answer));
        let next = after(c, answer, &input[p.at..], n);
        p = Played {
            session,
            turn: next.turn,
            at: p.at + next.at,
            used,
        };
    }
    p
}
