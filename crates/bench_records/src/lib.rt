// The records that the bench program reads.
#![tactic(auto)]

ghost use Rattle.std.specs.Prelude.{◌≡◌, ◌+◌, ◌*◌, ◌≤◌, ◌<◌, length, take, drop, MatchResult};
ghost use Rattle.std.specs.Int.{w64};
ghost use Rattle.std.proofs.Common.{to_z};
ghost use Rattle.text.specs.Ascii.{ascii};
ghost use Rattle.little_endian.specs.Little.{little};
ghost use Rattle.bench_records.specs.Record.{format, after, reading};
ghost use Rattle.bench_records.specs.View.{reading_of, Within};
ghost use Rattle.bench_records.specs.declared.Unread.TheVariants as unread;

use bidi_write::{Offset, i64_of};

// The marks, as little-endian numbers.
const OP: u16 = b'O' as u16 + 256 * b'P' as u16;

const AP: u16 = b'A' as u16 + 256 * b'P' as u16;

const FL: u16 = b'F' as u16 + 256 * b'L' as u16;

const FI: u16 = b'F' as u16 + 256 * b'I' as u16;

const CL: u16 = b'C' as u16 + 256 * b'L' as u16;

const RS: u16 = b'R' as u16 + 256 * b'S' as u16;

const HS: u16 = b'H' as u16 + 256 * b'S' as u16;

const BR: u16 = b'B' as u16 + 256 * b'R' as u16;

const VE: u16 = b'V' as u16 + 256 * b'E' as u16;

const NX: u16 = b'N' as u16 + 256 * b'X' as u16;

// A record that makes a call; an append's bytes come beside it.
#[derive(Clone, Copy)]
pub enum CallRecord {
    Append,
    Flush,
    Finalise,
    Close,
    Response(Offset),
    Handshake(Offset),
    Break,
    Verdict(u8),
    Next,
}

#[derive(Clone, Copy)]
pub enum Record {
    // C, capacity, P.
    Open(usize, usize, Offset),
    Call(CallRecord),
}

// Why no record was read.
#[derive(Clone, Copy)]
pub enum Unread {
    // The input ends inside the record.
    Cut,
    // The first two bytes are no mark.
    Unknown,
}

// ---- little-endian numbers of their halves

pub fn u16_of(low: u8, high: u8) -> u16
    ensures { result ≡ low + 256 * high }
{
    u16::from_le_bytes([low, high])
}

pub fn u32_of(low: u16, high: u16) -> u32
    ensures { result ≡ low + 0x1_0000 * high }
{
    low as u32 + 0x1_0000 * (high as u32)
}

pub fn u64_of(low: u32, high: u32) -> u64
    ensures { result ≡ low + 0x1_0000_0000 * high }
{
    low as u64 + 0x1_0000_0000 * (high as u64)
}

pub fn u16_at(b: &[u8], at: usize) -> u16
    requires { at + 2 ≤ length b.now }
    ensures { result ≡ little (take 2 (drop at b.now)) }
{
    u16_of(b[at], b[at + 1])
}

pub fn u32_at(b: &[u8], at: usize) -> u32
    requires { at + 4 ≤ length b.now }
    ensures { result ≡ little (take 4 (drop at b.now)) }
{
    u32_of(u16_at(b, at), u16_at(b, at + 2))
}

pub fn u64_at(b: &[u8], at: usize) -> u64
    requires { at + 8 ≤ length b.now }
    ensures { result ≡ little (take 8 (drop at b.now)) }
{
    u64_of(u32_at(b, at), u32_at(b, at + 4))
}

fn size_at(b: &[u8], at: usize) -> Offset
    requires { at + 8 ≤ length b.now }
    ensures { result.0 ≡ to_z w64 (little (take 8 (drop at b.now))) }
{
    Offset(i64_of(u64_at(b, at)))
}

// An input of fewer than n bytes cuts the record.
fn reaches(input: &[u8], n: usize) -> Result<(), Unread>
    ensures { MatchResult result (λ _. n ≤ length input.now) (λ e. (e ≡ unread.Cut) × (length input.now < n)) }
{
    if input.len() < n {
        return Err(Unread::Cut);
    }
    Ok(())
}

// What follows the mark of an opening.
fn read_open(input: &[u8]) -> Result<(Record, usize), Unread>
    ensures input_value { reading_of result input.now ≡ after format (ascii "OP") (drop 2 input.now) }
    ensures within { Within result (length input.now) }
{
    reaches(input, 16)?;
    let c = u16_at(input, 2);
    let capacity = u32_at(input, 4);
    let p = size_at(input, 8);
    Ok((Record::Open(c as usize, capacity as usize, p), 16))
}

// What follows the mark of an append.
fn read_append(input: &[u8]) -> Result<(Record, usize), Unread>
    ensures input_value { reading_of result input.now ≡ after format (ascii "AP") (drop 2 input.now) }
    ensures within { Within result (length input.now) }
{
    reaches(input, 4)?;
    let n = 4 + u16_at(input, 2) as usize;
    reaches(input, n)?;
    Ok((Record::Call(CallRecord::Append), n))
}

// A size behind the mark.
fn read_size(input: &[u8]) -> Result<Offset, Unread>
    ensures { MatchResult result (λ size. (10 ≤ length input.now) × (size.0 ≡ to_z w64 (little (take 8 (drop 2 input.now))))) (λ e. (e ≡ unread.Cut) × (length input.now < 10)) }
{
    reaches(input, 10)?;
    Ok(size_at(input, 2))
}

// The record that an input begins with, and how many bytes it takes: an append's own are the last of them, from byte 4 on.
pub fn read(input: &[u8]) -> Result<(Record, usize), Unread>
    ensures input_value { reading_of result input.now ≡ reading input.now }
    ensures within { Within result (length input.now) }
{
    reaches(input, 2)?;
    match u16_at(input, 0) {
        OP => read_open(input),
        AP => read_append(input),
        FL => Ok((Record::Call(CallRecord::Flush), 2)),
        FI => Ok((Record::Call(CallRecord::Finalise), 2)),
        CL => Ok((Record::Call(CallRecord::Close), 2)),
        RS => {
            let size = read_size(input)?;
            Ok((Record::Call(CallRecord::Response(size)), 10))
        }
        HS => {
            let size = read_size(input)?;
            Ok((Record::Call(CallRecord::Handshake(size)), 10))
        }
        BR => Ok((Record::Call(CallRecord::Break), 2)),
        VE => {
            reaches(input, 3)?;
            Ok((Record::Call(CallRecord::Verdict(input[2])), 3))
        }
        NX => Ok((Record::Call(CallRecord::Next), 2)),
        _ => Err(Unread::Unknown),
    }
}
