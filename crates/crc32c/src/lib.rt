// CRC32C as RFC 3720 has it: the generator 0x11EDC6F41, the register preset to ones, in each byte the
// least significant bit first, the remainder complemented.
#![tactic(auto)]

mod eight;

ghost use Rattle.std.specs.Prelude.{◌≡◌, ◌%◌, map};
ghost use Rattle.crc32c.specs.Poly.{Crc};
ghost use Rattle.crc32c.specs.Reg.{step, feed, reg, crc_of, updated, joined};
ghost use Rattle.crc32c.specs.Matrix.{applied, iterated, zero_byte};

use std::array;

// The generator below its leading coefficient, that of x^31 in the lowest bit.
const POLY: u32 = 0x82F6_3B78;

// What the register is preset to, and what complements it.
const ONES: u32 = 0xFFFF_FFFF;

// The sum of the bytes.
#[tactic(auto, unfolding(crate::specs::Reg::crc_of))]
pub fn crc32c(bytes: &[u8]) -> u32
    ensures divided { Crc bytes.now result }
    ensures register { result ≡ crc_of bytes.now }
{
    run(ONES, bytes) ^ ONES
}

// The sum of some bytes, taken further over the bytes that follow them.
#[tactic(auto, unfolding(crate::specs::Reg::updated))]
pub fn update(sum: u32, bytes: &[u8]) -> u32
    ensures { result ≡ updated sum bytes.now }
{
    run(sum ^ ONES, bytes) ^ ONES
}

// The sum of two runs of bytes, one after the other, from their sums and the second's length.
#[tactic(auto, using(crate::proofs::Operator::zeros_power), unfolding(crate::specs::Reg::joined))]
pub fn combine(crc1: u32, crc2: u32, len2: u64) -> u32
    ensures { result ≡ joined crc1 crc2 len2 }
{
    let op = zero_byte();
    power(&op, crc1, len2) ^ crc2
}

// The register over the bytes of a slice: by eights, and then the fewer than eight that are left. A short slice needs no case of
// its own: the tables are set up in the time of some ten bytes.
fn run(start: u32, bytes: &[u8]) -> u32
    ensures { result ≡ reg start bytes.now }
{
    let (eights, rest) = bytes.as_chunks::<8>();
    bytewise(eight::whole_eights(start, eights), rest)
}

// The same, a byte a turn.
#[tactic(auto, unfolding(crate::specs::Reg::reg))]
fn bytewise(start: u32, bytes: &[u8]) -> u32
    ensures { result ≡ reg start bytes.now }
{
    bytes.iter().fold(start, |crc, b| byte_step(crc, *b))
}

// One byte: eight steps.
fn byte_step(crc: u32, byte: u8) -> u32
    ensures { result ≡ feed crc byte }
{
    let mut r = crc ^ u32::from(byte);
    for _ in 0..8u32 {
        r = bit_step(r);
    }
    r
}

// One step of the register, on one path: the mask is nought minus the low bit, wrapping, and the polynomial is taken under it.
fn bit_step(crc: u32) -> u32
    ensures { result ≡ step crc }
{
    let mask = std::num::wrapping_sub_u32(0, crc & 1);
    (crc >> 1) ^ (POLY & mask)
}

// What one zero byte does, as an operator: a column for each bit of the register.
fn zero_byte() -> [u32; 32]
    ensures { result ≡ zero_byte }
{
    array::from_fn(|i| byte_step(1 << i, 0))
}

// An operator n times, at a register: its square half as often, after the odd one.
fn power(op: &[u32; 32], x: u32, n: u64) -> u32
    ensures { result ≡ iterated (applied op.now) n x }
{
    let y = odd_one(op, x, n);
    if n < 2 {
        return y;
    }
    let twice = square(op);
    power(&twice, y, n / 2)
}

// An operator once at a register where n is odd.
#[tactic(auto, unfolding(crate::specs::Matrix::iterated))]
fn odd_one(op: &[u32; 32], x: u32, n: u64) -> u32
    ensures { result ≡ iterated (applied op.now) (n % 2) x }
{
    if n % 2 == 1 { apply(op, x) } else { x }
}

// An operator after itself.
fn square(op: &[u32; 32]) -> [u32; 32]
    ensures { result ≡ map (applied op.now) op.now }
{
    array::from_fn(|i| apply(op, op[i]))
}

// An operator at a register: the sum of its columns at the register's ones.
fn apply(op: &[u32; 32], x: u32) -> u32
    ensures { result ≡ applied op.now x }
{
    let mut acc = 0;
    let mut rest = x;
    for column in op {
        if rest % 2 == 1 {
            acc ^= *column;
        }
        rest >>= 1;
    }
    acc
}
