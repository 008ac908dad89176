// Copies a slice into a lent buffer, from `at` on, as fast as the C library does. Each function returns the place behind what it wrote.
#![tactic(auto)]

ghost use Rattle.std.specs.Prelude.{◌+◌, ◌≤◌, ◌≡◌, length};
ghost use Rattle.copying.specs.Written.{Written};

const BLOCK: usize = 2048;

const LONG: usize = 262144;

// All of src, as one straight run.
fn put_run(buffer: &mut [u8], at: usize, src: &[u8]) -> usize
    requires { at + length src.now ≤ length buffer.old }
    ensures { Written src.now buffer.old buffer.new at result }
{
    buffer[at..at + src.len()].copy_from_slice(src);
    at + src.len()
}

// At most a block, by way of an array. The compiler doesn't know that src and buffer lie apart, but sees that the array does: it makes both copies
// calls of the C library's, then one call from src to buffer, and no array is left.
fn put_block(buffer: &mut [u8], at: usize, src: &[u8]) -> usize
    requires { (length src.now ≤ 2048) × (at + length src.now ≤ length buffer.old) }
    ensures { Written src.now buffer.old buffer.new at result }
{
    let mut block = [0u8; BLOCK];
    let n = src.len();
    block[..n].copy_from_slice(src);
    put_run(buffer, at, &block[..n])
}

// All of src, block by block.
fn put_blocks(buffer: &mut [u8], at: usize, src: &[u8]) -> usize
    requires { at + length src.now ≤ length buffer.old }
    ensures { Written src.now buffer.old buffer.new at result }
{
    let mut i = at;
    for block in src.chunks(BLOCK) {
        i = put_block(buffer, i, block);
    }
    i
}

// All of src. Where it is so long that memory sets the pace, one run is faster than blocks, if its stores lie at multiples of 16: most buffers begin at one.
pub fn put_all(buffer: &mut [u8], at: usize, src: &[u8]) -> usize
    requires { at + length src.now ≤ length buffer.old }
    ensures { Written src.now buffer.old buffer.new at result }
{
    if src.len() < LONG {
        return put_blocks(buffer, at, src);
    }
    let (first, rest) = src.split_at(16 - at % 16);
    let i = put_run(buffer, at, first);
    put_run(buffer, i, rest)
}
