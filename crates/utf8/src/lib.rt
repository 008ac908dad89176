// Whether bytes are UTF-8.
#![tactic(auto)]

ghost use Rattle.std.specs.Prelude.{◌≡◌};
ghost use Rattle.utf8.specs.Utf8.{characters, after, utf8};
ghost use Rattle.utf8.specs.Wanted.{want_of, ranges_of, Steps};

// How many bytes the character begun still wants, and where the next of them has to be.
#[derive(Clone, Copy)]
struct Want {
    tails: usize,
    low: u8,
    high: u8,
}

// UTF8-tail.
const TAIL_LOW: u8 = 0x80;

const TAIL_HIGH: u8 = 0xBF;

// Behind a byte that may not stand where it stands: one that no byte is.
const STUCK: Want = Want {
    tails: 1,
    low: 1,
    high: 0,
};

fn wants(tails: usize, low: u8, high: u8) -> Want
    ensures { result ≡ want_of tails low high }
{
    Want { tails, low, high }
}

// Behind a first byte, by the rows of RFC 3629, section 4.
#[tactic(auto, unfolding(crate::specs::Utf8::after))]
fn lead(b: u8) -> Want
    ensures { ranges_of result ≡ after characters b }
{
    match b {
        // UTF8-1
        0x00..=0x7F => wants(0, TAIL_LOW, TAIL_HIGH),
        // UTF8-2
        0xC2..=0xDF => wants(1, TAIL_LOW, TAIL_HIGH),
        // UTF8-3, four rows
        0xE0 => wants(2, 0xA0, TAIL_HIGH),
        0xE1..=0xEC => wants(2, TAIL_LOW, TAIL_HIGH),
        0xED => wants(2, TAIL_LOW, 0x9F),
        0xEE..=0xEF => wants(2, TAIL_LOW, TAIL_HIGH),
        // UTF8-4, three rows
        0xF0 => wants(3, 0x90, TAIL_HIGH),
        0xF1..=0xF3 => wants(3, TAIL_LOW, TAIL_HIGH),
        0xF4 => wants(3, TAIL_LOW, 0x8F),
        _ => STUCK,
    }
}

// One byte on.
#[tactic(auto, using(crate::proofs::Steps::leads, crate::proofs::Steps::sticks_under, crate::proofs::Steps::sticks_over, crate::proofs::Steps::goes))]
fn next_want(w: Want, b: u8) -> Want
    ensures { Steps w b result }
{
    if w.tails == 0 {
        return lead(b);
    }
    if b < w.low || w.high < b {
        return STUCK;
    }
    wants(w.tails - 1, TAIL_LOW, TAIL_HIGH)
}

#[tactic(auto, using(crate::proofs::Steps::step_at, crate::proofs::Steps::ends_at))]
pub fn is_utf8(s: &[u8]) -> bool
    ensures { result ≡ utf8 s.now }
{
    let mut w = wants(0, TAIL_LOW, TAIL_HIGH);
    for b in s {
        w = next_want(w, *b);
    }
    w.tails == 0
}
