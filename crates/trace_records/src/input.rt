// Records out of standard input, by way of a buffer.
ghost use Rattle.std.specs.Prelude.{◌≡◌, ◌+◌, ◌-◌, ◌≤◌, length, drop, take, IfSome};
ghost use Rattle.trace_records.specs.Record.{brings};

use crate::{Record, read};

const STDIN_FILENO: i32 = 0;

// Of the buffer's bytes those from `at` up to `end` are not used yet.
#[derive(Drop)]
pub struct Input<'b> {
    buffer: &'b mut [u8],
    at: usize,
    end: usize,
    ghost in_order: { at ≤ end },
    ghost within: { end ≤ length buffer.now },
}

impl<'b> Input<'b> {
    pub fn new(buffer: &'b mut [u8]) -> Input<'b> {
        Input {
            buffer,
            at: 0,
            end: 0,
        }
    }

    // The next record, out of more input where the buffer has no whole one.
    pub fn record(&mut self) -> Option<Record>
        ensures { IfSome result (λ r. 2 + brings r ≤ self.new.at) }
    {
        if let Some(record) = self.next() {
            return Some(record);
        }
        self.refill();
        self.next()
    }

    // The next record, if the buffer has it whole.
    fn next(&mut self) -> Option<Record>
        ensures { IfSome result (λ r. self.old.at + 2 + brings r ≤ self.new.at) }
    {
        let mut left = &self.buffer[self.at..self.end];
        let record = read(&mut left)?;
        self.at = self.end - left.len();
        Some(record)
    }

    // The last n of the bytes used: what the record given last brings, where it says n. The next call of `record` may move them.
    pub fn brought(&self, n: usize) -> &[u8]
        ensures { result.now ≡ drop (self.now.at - n) (take self.now.at self.now.buffer.now) }
    {
        &self.buffer[self.at.saturating_sub(n)..self.at]
    }

    // Moves what is not used yet to the front and fills the buffer behind it.
    fn refill(&mut self) {
        let at = self.at;
        let end = self.end;
        let kept = end - at;
        self.buffer.copy_within(at..end, 0);
        let more = io::read_full(STDIN_FILENO, &mut self.buffer[kept..]);
        self.at = 0;
        self.end = kept + more;
    }
}
