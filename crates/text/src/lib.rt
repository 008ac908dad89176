// A line in the making, by value. What does not fit is left out.
#![tactic(auto)]

ghost use Rattle.std.specs.Prelude.{◌≡◌, [], ◌∷◌, take};
ghost use Rattle.io.specs.Counts.{IsPrefixLen};
ghost use Rattle.text.specs.Decimal.{number, signed};
ghost use Rattle.text.specs.Line.{text_of, Adds};

// A line of the bench program has at most 72 bytes.
pub const MOST: usize = 96;

// The text is the first `length` bytes: there is no heap.
#[derive(Clone, Copy)]
pub struct Line {
    pub bytes: [u8; MOST],
    pub length: usize,
}

impl Line {
    pub fn new() -> Line
        ensures { text_of result ≡ [] }
    {
        Line {
            bytes: [0u8; MOST],
            length: 0,
        }
    }

    pub fn byte(mut self, b: u8) -> Line
        ensures { Adds self (b ∷ []) result }
    {
        if self.length < MOST {
            self.bytes[self.length] = b;
            self.length += 1;
        }
        self
    }

    pub fn text(mut self, text: &[u8]) -> Line
        ensures { Adds self text.now result }
    {
        for &b in text {
            self = self.byte(b);
        }
        self
    }

    pub fn number(self, n: u64) -> Line
        ensures { Adds self (number n) result }
    {
        let mut digits = [0u8; 20];
        let k = io::decimal(n, &mut digits);
        self.text(&digits[..k])
    }

    pub fn signed(self, n: i64) -> Line
        ensures { Adds self (signed n) result }
    {
        if n < 0 {
            return self.byte(b'-').number(n.unsigned_abs());
        }
        self.number(n.unsigned_abs())
    }

    // Where the text ends, also in a record that no function of this file made.
    pub fn end(self) -> usize
        ensures prefix_len { IsPrefixLen result self.bytes }
        ensures bytes_value { take result self.bytes ≡ text_of self }
    {
        self.length.min(MOST)
    }
}
