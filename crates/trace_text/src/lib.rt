// What is printed goes to a buffer, of which the first n bytes wait. Each function takes n and gives the new one.
#![tactic(auto)]

use text::Line;

const STDOUT_FILENO: i32 = 1;

// Writes what waits.
pub fn flush(out: &[u8], n: usize) {
    io::write_all(STDOUT_FILENO, part(out, 0, n));
}

// The bytes from `from` up to `to`, none where the slice has no such part.
pub fn part(s: &[u8], from: usize, to: usize) -> &[u8] {
    s.get(from..to).unwrap_or(&[])
}

// A full buffer is written first.
pub fn byte(out: &mut [u8], n: usize, b: u8) -> usize {
    let at = place(out, n);
    if at < out.len() {
        out[at] = b;
        return at + 1;
    }
    at
}

fn place(out: &[u8], n: usize) -> usize {
    if n < out.len() {
        return n;
    }
    flush(out, n);
    0
}

pub fn text(out: &mut [u8], mut n: usize, s: &[u8]) -> usize {
    for &b in s {
        n = byte(out, n, b);
    }
    n
}

pub fn line(out: &mut [u8], n: usize, x: Line) -> usize {
    text(out, n, &x.bytes[..x.end()])
}

// Digits do not go by way of a line, which is copied whole for each byte.
pub fn number(out: &mut [u8], n: usize, x: u64) -> usize {
    let mut digits = [0u8; 20];
    let k = io::decimal(x, &mut digits);
    text(out, n, &digits[..k])
}

pub fn signed(out: &mut [u8], n: usize, x: i64) -> usize {
    let n = if x < 0 { byte(out, n, b'-') } else { n };
    number(out, n, x.unsigned_abs())
}

pub fn flag(out: &mut [u8], n: usize, on: bool) -> usize {
    byte(out, n, if on { b'1' } else { b'0' })
}

// A byte's two hexadecimal digits.
pub fn hex(out: &mut [u8], n: usize, b: u8) -> usize {
    let n = byte(out, n, digit(b / 16));
    byte(out, n, digit(b % 16))
}

fn digit(d: u8) -> u8 {
    match d {
        0..=9 => b'0' + d,
        10..=15 => b'a' - 10 + d,
        _ => b'?',
    }
}

pub fn hexes(out: &mut [u8], mut n: usize, s: &[u8]) -> usize {
    for &b in s {
        n = hex(out, n, b);
    }
    n
}

pub fn sum(out: &mut [u8], n: usize, x: u32) -> usize {
    let mut digits = [0u8; 16];
    let k = io::hex(x as u64, 8, &mut digits);
    text(out, n, &digits[..k])
}

// ---- a name, and its value behind it

pub fn number_field(out: &mut [u8], n: usize, name: &[u8], x: u64) -> usize {
    let n = text(out, n, name);
    number(out, n, x)
}

pub fn flag_field(out: &mut [u8], n: usize, name: &[u8], on: bool) -> usize {
    let n = text(out, n, name);
    flag(out, n, on)
}

pub fn signed_field(out: &mut [u8], n: usize, name: &[u8], x: i64) -> usize {
    let n = text(out, n, name);
    signed(out, n, x)
}

pub fn sum_field(out: &mut [u8], n: usize, name: &[u8], x: u32) -> usize {
    let n = text(out, n, name);
    sum(out, n, x)
}
