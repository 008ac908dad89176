// The run of the bench program: records are read from a file, and lines are written.
#![tactic(auto)]

mod gather;
mod input;
mod play;
mod turns;

ghost use Rattle.std.specs.Prelude.{◌≡◌, ◌-◌, ◌≤◌, length};
ghost use Rattle.transport.specs.Valid.{Valid};
ghost use Rattle.bench_run.specs.Turn.{TurnInside};

use crate::gather::write;
use crate::input::feed;
use crate::play::{Played, begin, play};

// "Store 32,768 bytes, 64 slots, out buffer 8,192." The input has room for the longest record, of 4 + 65,535 bytes.
pub fn run(fd: i32) {
    let mut input = [0u8; 131072];
    let mut store = [0u8; 32768];
    let mut table = [0u64; 64];
    let mut out = [0u8; 8192];
    let mut text = [0u8; 4096];
    let end = io::read_full(fd, &mut input);
    let p = begin(&input[..end], &mut store, &mut table, &mut text);
    follow(
        p, fd, end, &mut input, &mut store, &mut table, &mut out, &mut text,
    );
}

// What is printed is written, and bytes are fed. A proved loop has to end, and nothing says that a file does: no run takes so many turns.
fn follow(
    mut p: Played,
    fd: i32,
    mut end: usize,
    input: &mut [u8],
    store: &mut [u8],
    table: &mut [u64],
    out: &mut [u8],
    text: &mut [u8],
)
    requires valid { Valid p.session store.old table.old }
    requires out_len { length out.old ≡ 8192 }
    requires used_in_bounds { p.used ≤ length text.old }
    requires at_le_end { p.at ≤ end }
    requires end_in_bounds { end ≤ length input.old }
    requires turn_inside { TurnInside p.turn (end - p.at) }
{
    for _ in 0..u64::MAX {
        write(text, p.used);
        let Some((from, to)) = feed(fd, p.turn, input, p.at, end) else {
            return;
        };
        let q = play(p.session, p.turn, &input[from..to], store, table, out, text);
        p = Played {
            at: from + q.at,
            ..q
        };
        end = to;
    }
}
