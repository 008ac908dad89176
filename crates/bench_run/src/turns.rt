// What is to be done next.
ghost use Rattle.std.specs.Prelude.{◌≡◌, ◌-◌, ◌≤◌, min, length, take, drop};
ghost use Rattle.std.proofs.Math.Option.{none};
ghost use Rattle.rules.specs.Message.{Bytes};
ghost use Rattle.transport.specs.View.{answer_of};
ghost use Rattle.bench_turns.specs.Turn.{call_of, again};
ghost use Rattle.bench_run.specs.Turn.{Ready, call_at, rest_at, Goes};
ghost use Rattle.bench_run.specs.declared.turns.Turn.TheVariants as turn;

use bench_records::{CallRecord, Record, Unread};
use bidi_write::Refusal;
use transport::Answer;

#[derive(Clone, Copy)]
pub enum Turn {
    // A call; the bytes at hand begin with so many of its own.
    Call(CallRecord, usize),
    // A record is to be read.
    Read,
    End,
}

// A turn, with the bytes at hand from this one on.
#[derive(Clone, Copy)]
pub struct Next {
    pub at: usize,
    pub turn: Turn,
}

// A turn that waited for bytes.
pub fn resume(t: Turn, input: &[u8]) -> Next
    requires { Ready t (length input.now) }
    ensures { Goes (call_at t input.now) (rest_at t input.now) input.now result }
{
    match t {
        Turn::Call(c, n) => found(0, Turn::Call(c, n)),
        Turn::Read => next_turn(input),
        Turn::End => found(0, Turn::End),
    }
}

// The same call again, or the next record's. The first n bytes were the call's.
pub fn after(c: CallRecord, a: Result<Answer, Refusal>, input: &[u8], n: usize) -> Next
    requires { n ≤ length input.now }
    ensures { (out : Bytes) → Goes (again (call_of c (take n input.now) 8192) (answer_of a out)) (drop n input.now) input.now result }
{
    match bench_turns::again(c, a, &input[..n]) {
        Some(m) => found(m, Turn::Call(c, n - m)),
        None => {
            let next = next_turn(&input[n..]);
            found(n + next.at, next.turn)
        }
    }
}

// "A second OP, or a cut or unknown [record], ends the run": a cut one, where no more bytes come.
pub fn next_turn(input: &[u8]) -> Next
    ensures { Goes none input.now input.now result }
{
    match bench_records::read(input) {
        Ok((Record::Open(_, _, _), _)) => found(0, Turn::End),
        Ok((Record::Call(c), n)) => lies(c, n),
        Err(Unread::Cut) => found(0, Turn::Read),
        Err(Unread::Unknown) => found(0, Turn::End),
    }
}

// The call of a record of n bytes: a mark and a length come before an append's own.
fn lies(c: CallRecord, n: usize) -> Next
    ensures { (result.at ≡ min n 4) × (result.turn ≡ turn.Call c (n - min n 4)) }
{
    let at = n.min(4);
    found(at, Turn::Call(c, n - at))
}

pub fn found(at: usize, turn: Turn) -> Next
    ensures { (result.at ≡ at) × (result.turn ≡ turn) }
{
    Next { at, turn }
}
