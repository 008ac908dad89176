// The checksum, its join, a request's bytes and a plan for a program in C or Rust to time (tools/performance). Whole uploads are timed through the program
// `bench`: what such a program calls may hold no enum, so no session can be driven through an export and be promised by the rules.
#![tactic(auto)]

ghost use Rattle.std.specs.Prelude.{◌≡◌};
ghost use Rattle.std.proofs.Math.Option.{some};
ghost use Rattle.crc32c.specs.Reg.{crc_of, joined};
ghost use Rattle.measure.specs.Plain.{data_of, checksum_of, request_of, Wrote, planned_numbers};

use bidi_write::{ChecksummedData, Offset, Request, refusal_number};

// What a plan answers: the refusal's number, or 0 and what is needed.
#[repr(C)]
#[derive(Clone, Copy, Default)]
pub struct PlanNumbers {
    pub refused: u64,
    pub chunks: u64,
    pub stored: u64,
    pub held: u64,
    pub appends: u64,
    pub flushes: u64,
}

#[unsafe(no_mangle)]
pub extern "C" fn michqoya_crc32c(bytes: &[u8]) -> u32
    ensures { result ≡ crc_of bytes.now }
{
    crc32c::crc32c(bytes)
}

#[unsafe(no_mangle)]
pub extern "C" fn michqoya_combine(crc1: u32, crc2: u32, len2: u64) -> u32
    ensures { result ≡ joined crc1 crc2 len2 }
{
    crc32c::combine(crc1, crc2, len2)
}

// Answers how many bytes it wrote, and 2^64 - 1 where it refuses.
// C has no Option: a flag stands beside what it tells of.
#[unsafe(no_mangle)]
pub extern "C" fn michqoya_write(
    write_offset: i64,
    has_data: bool,
    length: usize,
    crc32c: u32,
    has_checksum: bool,
    checksum: u32,
    state_lookup: bool,
    flush: bool,
    finish_write: bool,
    data: &[u8],
    buffer: &mut [u8],
) -> usize
    ensures { Wrote (request_of write_offset (data_of has_data length crc32c) (checksum_of has_checksum checksum) state_lookup flush finish_write) «data».now buffer.old result buffer.new }
{
    let request = Request {
        write_offset: Offset(write_offset),
        data: has_data.then_some(ChecksummedData { length, crc32c }),
        object_checksums: has_checksum.then_some(checksum),
        state_lookup,
        flush,
        finish_write,
    };
    wire::write(request, data, buffer).unwrap_or(usize::MAX)
}

// Where it refuses, the needs are 0.
#[unsafe(no_mangle)]
pub extern "C" fn michqoya_plan(limit: usize, lengths: &[u32]) -> PlanNumbers
    ensures { planned_numbers limit lengths.now ≡ some result }
{
    match planning::plan(limit, lengths) {
        Err(x) => PlanNumbers {
            refused: refusal_number(x),
            ..PlanNumbers::default()
        },
        Ok(n) => PlanNumbers {
            refused: 0,
            chunks: n.chunks,
            stored: n.stored,
            held: n.held,
            appends: n.appends,
            flushes: n.flushes,
        },
    }
}
