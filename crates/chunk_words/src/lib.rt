// Ported from google-cloud-storage 1.21.0, src/storage/bidi_write/replay_buffer.rs, Copyright 2026 Google LLC (Apache-2.0); changed: no tasks, channels or heap.
// A word of the chunk table, which stands for the source's `ReplayChunk`: a chunk's length in the low 32 bits, its CRC32C in the high 32 bits.
#![tactic(auto)]

ghost use Rattle.std.specs.Prelude.{◌≡◌};
ghost use Rattle.chunk_words.specs.Word.{packed, len_of, sum_of};

pub fn pack(len: u32, sum: u32) -> u64
    ensures { result ≡ packed len sum }
{
    u64::from(sum) << 32 | u64::from(len)
}

pub fn len_of(w: u64) -> u32
    ensures { result ≡ len_of w }
{
    (w & 0xFFFF_FFFF) as u32
}

pub fn sum_of(w: u64) -> u32
    ensures { result ≡ sum_of w }
{
    (w >> 32) as u32
}
