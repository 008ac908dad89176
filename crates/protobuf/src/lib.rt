// Writers of varints and fields into a lent buffer, from `at` on. Each returns the place behind what it wrote, and asks the caller for the room.
#![tactic(auto)]

ghost use Rattle.std.specs.Prelude.{◌≡◌, ◌+◌, ◌*◌, ◌≤◌, [], ◌∷◌, length};
ghost use Rattle.little_endian.specs.Little.{digits};
ghost use Rattle.protobuf_format.specs.Varint.{varint_of};
ghost use Rattle.protobuf_format.specs.Field.{fixed32, field, write};
ghost use Rattle.protobuf_format.specs.Slot.{plain_int, plain_bool, plain_bytes};
ghost use Rattle.copying.specs.Written.{Written};
ghost use Rattle.protobuf.specs.Head.{head};

use copying::put_all;

// Wire types.
const VARINT: u8 = 0;

const LEN: u8 = 2;

const I32: u8 = 5;

// How many bytes the shortest varint of n takes.
pub fn varint_len(n: u64) -> usize
    ensures { result ≡ length (varint_of n) }
{
    let mut rest = n;
    let mut count: usize = 1;
    // no index is counted: the number falls
    while rest >= 128 {
        rest /= 128;
        count += 1;
    }
    count
}

// The shortest varint of n.
fn put_varint(buffer: &mut [u8], at: usize, n: u64) -> usize
    requires { at + length (varint_of n) ≤ length buffer.old }
    ensures { Written (varint_of n) buffer.old buffer.new at result }
{
    let mut rest = n;
    let mut i = at;
    // no index is counted: i is the place that is returned
    while rest >= 128 {
        buffer[i] = (128 + rest % 128) as u8;
        rest /= 128;
        i += 1;
    }
    buffer[i] = rest as u8;
    i + 1
}

// A field's key: its number and the wire type of its value.
fn put_key(buffer: &mut [u8], at: usize, number: u8, wire_type: u8) -> usize
    requires { at + length (varint_of (number * 8 + wire_type)) ≤ length buffer.old }
    ensures { Written (varint_of (number * 8 + wire_type)) buffer.old buffer.new at result }
{
    put_varint(buffer, at, number as u64 * 8 + wire_type as u64)
}

// The four bytes of v, the lowest first.
fn put_four(buffer: &mut [u8], at: usize, v: u32) -> usize
    requires { at + 4 ≤ length buffer.old }
    ensures { Written (digits 4 v) buffer.old buffer.new at result }
{
    buffer[at..at + 4].copy_from_slice(&v.to_le_bytes());
    at + 4
}

// A plain number's field: nothing where it is 0.
pub fn put_int(buffer: &mut [u8], at: usize, number: u8, n: u64) -> usize
    requires { at + length (write (plain_int number n)) ≤ length buffer.old }
    ensures { Written (write (plain_int number n)) buffer.old buffer.new at result }
{
    let absent = n == 0;
    if absent {
        return at;
    }
    let i = put_key(buffer, at, number, VARINT);
    put_varint(buffer, i, n)
}

// A plain bool's field: nothing where it is false.
pub fn put_bool(buffer: &mut [u8], at: usize, number: u8, b: bool) -> usize
    requires { at + length (write (plain_bool number b)) ≤ length buffer.old }
    ensures { Written (write (plain_bool number b)) buffer.old buffer.new at result }
{
    if b {
        let i = put_key(buffer, at, number, VARINT);
        return put_varint(buffer, i, 1);
    }
    at
}

// A field of four bytes.
pub fn put_fixed32(buffer: &mut [u8], at: usize, number: u8, v: u32) -> usize
    requires { at + length (write (field number (fixed32 v) ∷ [])) ≤ length buffer.old }
    ensures { Written (write (field number (fixed32 v) ∷ [])) buffer.old buffer.new at result }
{
    let i = put_key(buffer, at, number, I32);
    put_four(buffer, i, v)
}

// What stands before the bytes of a length-delimited field, len of them.
pub fn put_head(buffer: &mut [u8], at: usize, number: u8, len: u64) -> usize
    requires { at + length (head number len) ≤ length buffer.old }
    ensures { Written (head number len) buffer.old buffer.new at result }
{
    let i = put_key(buffer, at, number, LEN);
    put_varint(buffer, i, len)
}

// A plain field of bytes: nothing where there are none.
pub fn put_bytes(buffer: &mut [u8], at: usize, number: u8, src: &[u8]) -> usize
    requires { at + length (write (plain_bytes number src.now)) ≤ length buffer.old }
    ensures { Written (write (plain_bytes number src.now)) buffer.old buffer.new at result }
{
    if src.is_empty() {
        return at;
    }
    let i = put_head(buffer, at, number, src.len() as u64);
    put_all(buffer, i, src)
}
