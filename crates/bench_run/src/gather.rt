// The lines, which are gathered: a write for each would take most of the time.
ghost use Rattle.std.specs.Prelude.{◌+◌, ◌≤◌, length};
ghost use Rattle.text.specs.Line.{text_of};
ghost use Rattle.bench_run.specs.Gathers.{Gathers};

use text::Line;

const STDOUT_FILENO: i32 = 1;

// Puts a line behind the text, and tells where it ends.
pub fn put(text: &mut [u8], used: usize, line: Line) -> usize
    requires { used + 96 ≤ length text.old }
    ensures { Gathers text.old used (text_of line) text.new result }
{
    let n = line.end();
    text[used..used + n].copy_from_slice(&line.bytes[..n]);
    used + n
}

pub fn write(text: &[u8], used: usize)
    requires { used ≤ length text.now }
{
    io::write_all(STDOUT_FILENO, &text[..used]);
}
