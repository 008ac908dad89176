// The run of the program `plan`: a list is read, and what it needs is written as a line. Numbers have four bytes, the lowest first: C, then the entries.
#![tactic(auto)]

ghost use Rattle.std.specs.Prelude.{◌+◌, ◌*◌, ◌≤◌, length};

use bench_records::u32_at;
use bidi_write::{Refusal, refusal_number};
use planning::{MAX_ENTRIES, Needs, plan};

const STDOUT_FILENO: i32 = 1;

// One more than a plan takes, so that a longer list is refused; what lies behind is not read.
const ENTRIES: usize = MAX_ENTRIES + 1;

const INPUT: usize = 4 + 4 * ENTRIES;

pub fn run(fd: i32) {
    let mut input = [0u8; INPUT];
    let mut lengths = [0u32; ENTRIES];
    let end = io::read_full(fd, &mut input);
    line(&input[..end], &mut lengths);
}

// The line of an input, whose entries are put into `lengths`.
fn line(input: &[u8], lengths: &mut [u32])
    requires { length input.now ≤ 4 + 4 * length lengths.old }
{
    let end = input.len();
    if end < 4 {
        io::write_all(
            STDOUT_FILENO,
            b"plan: no C: the input begins with it, in four bytes\n",
        );
        return;
    }
    if end % 4 != 0 {
        io::write_all(
            STDOUT_FILENO,
            b"plan: the last entry is cut: each has four bytes\n",
        );
        return;
    }
    let lengths = &mut lengths[..end / 4 - 1];
    for (i, length) in lengths.iter_mut().enumerate() {
        *length = u32_at(input, 4 + 4 * i);
    }
    print(plan(u32_at(input, 0) as usize, lengths));
}

fn print(answer: Result<Needs, Refusal>) {
    match answer {
        Err(x) => number(b"E", refusal_number(x)),
        Ok(needs) => print_needs(needs),
    }
    io::write_all(STDOUT_FILENO, b"\n");
}

fn print_needs(needs: Needs) {
    number(b"chunks ", needs.chunks);
    number(b" stored ", needs.stored);
    number(b" held ", needs.held);
    number(b" appends ", needs.appends);
    number(b" flushes ", needs.flushes);
}

fn number(word: &[u8], n: u64) {
    io::write_all(STDOUT_FILENO, word);
    io::print_decimal(STDOUT_FILENO, n);
}
