// The bytes of a file, through a buffer.
ghost use Rattle.std.specs.Prelude.{◌≡◌, ◌+◌, ◌-◌, ◌≤◌, length, take, drop};
ghost use Rattle.bench_run.specs.Turn.{TurnInside};
ghost use Rattle.bench_run.specs.Feeds.{Feeds};

use crate::turns::Turn;

// The bytes at hand for what is to be done next: where a record is to be read, more than were there. A cut record is shorter than the buffer, so that none comes
// only where the file ends.
pub fn feed(fd: i32, t: Turn, input: &mut [u8], at: usize, end: usize) -> Option<(usize, usize)>
    requires at_le_end { at ≤ end }
    requires end_in_bounds { end ≤ length input.old }
    requires turn_inside { TurnInside t (end - at) }
    ensures { Feeds t at end input.old result input.new }
{
    match t {
        Turn::Call(_, _) => Some((at, end)),
        Turn::Read => {
            let to = fill(fd, input, at, end);
            if end - at < to { Some((0, to)) } else { None }
        }
        Turn::End => None,
    }
}

// Moves the bytes at hand to the start, and reads as many more as there is room for.
fn fill(fd: i32, input: &mut [u8], at: usize, end: usize) -> usize
    requires at_le_end { at ≤ end }
    requires end_in_bounds { end ≤ length input.old }
    ensures upper_bound { result ≤ length input.old }
    ensures input_after { take (end - at) input.new ≡ take (end - at) (drop at input.old) }
{
    let n = end - at;
    input.copy_within(at..end, 0);
    n + io::read_full(fd, &mut input[n..])
}
