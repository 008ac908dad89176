// A request in protobuf encoding, google.storage.v2.BidiWriteObjectRequest, written into a lent buffer.
#![tactic(auto)]

ghost use Rattle.std.specs.Prelude.{◌≡◌, ℕ, ◌+◌, ◌^◌, ◌<◌, ◌≤◌, length};
ghost use Rattle.std.proofs.Math.Option.{some, map};
ghost use Rattle.std.specs.Int.{w64};
ghost use Rattle.std.proofs.Common.{of_z};
ghost use Rattle.protobuf_format.specs.Field.{write};
ghost use Rattle.protobuf_format.specs.Slot.{plain_int, plain_bool};
ghost use Rattle.copying.specs.Written.{Written};
ghost use Rattle.rules.specs.Message.{Bytes};
ghost use Rattle.bidi_write.specs.View.{checksum_of, data_of, length_of, request_of};
ghost use Rattle.wire_format.specs.Wire as W;
ghost use Rattle.wire_format.specs.Wire.{data_fields, data_slot, sums_slot, sum_alone, with_sum, wire, shortest};
ghost use Rattle.wire.specs.Answer.{Writes};

use bidi_write::{ChecksummedData, Offset, Refusal, Request, refuse_if};
use protobuf::{put_bool, put_bytes, put_fixed32, put_head, put_int, varint_len};

// The 64 bits of an offset, those of its two's complement below zero.
fn bits(offset: Offset) -> u64
    ensures { result ≡ of_z w64 offset.0 }
{
    offset.0.cast_unsigned()
}

// ---- lengths, of a field where it has no other comment

// The length that a request gives its data.
fn length_of(payload: Option<ChecksummedData>) -> usize
    ensures { result ≡ length_of payload }
{
    payload.map_or(0, |d| d.length)
}

// The length of the embedded message with n bytes of content and their sum.
#[tactic(auto, using(protobuf_format::proofs::Varint::groups_of_most, crate::proofs::Writing::message_none, crate::proofs::Writing::message_some))]
fn message_len(n: usize) -> usize
    requires { n < 2 ^ 63 }
    ensures upper_bound { result ≤ n + 16 }
    ensures value { (content : Bytes) (crc32c : ℕ) → length content ≡ n → result ≡ length (write (data_fields (W.data_of content (some crc32c)))) }
{
    if n == 0 {
        5
    } else {
        1 + varint_len(n as u64) + n + 5
    }
}

#[tactic(auto, using(protobuf_format::proofs::Varint::groups_of_most, wire_format::proofs::Cost::cost_nil, crate::proofs::Writing::offset_length))]
fn offset_len(n: u64) -> usize
    ensures { (result ≡ length (write (plain_int 3 n))) × (result ≤ 11) }
{
    if n == 0 { 0 } else { 1 + varint_len(n) }
}

#[tactic(auto, using(protobuf_format::proofs::Varint::groups_of_most, wire_format::proofs::Cost::cost_nil, crate::proofs::Writing::data_length))]
fn data_len(payload: Option<ChecksummedData>) -> usize
    requires { length_of payload < 2 ^ 63 }
    ensures upper_bound { result ≤ length_of payload + 27 }
    ensures value { (lent : Bytes) → length_of payload ≤ length lent → result ≡ length (write (data_slot (map with_sum (data_of payload lent)))) }
{
    match payload {
        None => 0,
        Some(d) => {
            let inner = message_len(d.length);
            1 + varint_len(inner as u64) + inner
        }
    }
}

#[tactic(auto, using(wire_format::proofs::Cost::cost_nil, crate::proofs::Writing::sum_length))]
fn checksum_len(checksum: Option<u32>) -> usize
    ensures { (result ≡ length (write (sums_slot (map sum_alone (checksum_of checksum))))) × (result ≤ 7) }
{
    if checksum.is_some() { 7 } else { 0 }
}

#[tactic(auto, using(wire_format::proofs::Cost::cost_nil, crate::proofs::Writing::flag_length))]
fn flag_len(b: bool) -> usize
    ensures upper_bound { result ≤ 2 }
    ensures by_index { (number : ℕ) → number < 16 → result ≡ length (write (plain_bool number b)) }
{
    if b { 2 } else { 0 }
}

// The length of the shortest message, by the lengths alone.
fn encoded_len(request: Request) -> usize
    requires { length_of request.«data» < 2 ^ 63 }
    ensures { (lent : Bytes) → length_of request.«data» ≤ length lent → result ≡ shortest (request_of request lent) }
{
    offset_len(bits(request.write_offset))
        + data_len(request.data)
        + checksum_len(request.object_checksums)
        + flag_len(request.state_lookup)
        + flag_len(request.flush)
        + flag_len(request.finish_write)
}

// ---- fields, each written behind the last

// The data field.
fn put_content(buffer: &mut [u8], at: usize, content: &[u8], crc32c: u32) -> usize
    requires { at + length (write (data_slot (some (W.data_of content.now (some crc32c))))) ≤ length buffer.old }
    ensures { Written (write (data_slot (some (W.data_of content.now (some crc32c))))) buffer.old buffer.new at result }
{
    let inner = message_len(content.len());
    let i = put_head(buffer, at, 4, inner as u64);
    let j = put_bytes(buffer, i, 1, content);
    put_fixed32(buffer, j, 2, crc32c)
}

// The data field, where there is data.
fn put_data(buffer: &mut [u8], at: usize, lent: &[u8], payload: Option<ChecksummedData>) -> usize
    requires { (length_of payload ≤ length lent.now) × (at + length (write (data_slot (map with_sum (data_of payload lent.now)))) ≤ length buffer.old) }
    ensures { Written (write (data_slot (map with_sum (data_of payload lent.now)))) buffer.old buffer.new at result }
{
    match payload {
        None => at,
        Some(d) => put_content(buffer, at, &lent[..d.length], d.crc32c),
    }
}

// The field of the object's sum.
fn put_sum(buffer: &mut [u8], at: usize, crc32c: u32) -> usize
    requires { at + length (write (sums_slot (some (sum_alone crc32c)))) ≤ length buffer.old }
    ensures { Written (write (sums_slot (some (sum_alone crc32c)))) buffer.old buffer.new at result }
{
    let i = put_head(buffer, at, 6, 5);
    put_fixed32(buffer, i, 1, crc32c)
}

// The field of the object's sum, where it is known.
fn put_checksum(buffer: &mut [u8], at: usize, checksum: Option<u32>) -> usize
    requires { at + length (write (sums_slot (map sum_alone (checksum_of checksum)))) ≤ length buffer.old }
    ensures { Written (write (sums_slot (map sum_alone (checksum_of checksum)))) buffer.old buffer.new at result }
{
    match checksum {
        None => at,
        Some(sum) => put_sum(buffer, at, sum),
    }
}

// All fields, in ascending order.
fn put_fields(buffer: &mut [u8], lent: &[u8], request: Request) -> usize
    requires { (length_of request.«data» ≤ length lent.now) × (shortest (request_of request lent.now) ≤ length buffer.old) }
    ensures { Written (wire (request_of request lent.now)) buffer.old buffer.new 0 result }
{
    let a = put_int(buffer, 0, 3, bits(request.write_offset));
    let b = put_data(buffer, a, lent, request.data);
    let c = put_checksum(buffer, b, request.object_checksums);
    let d = put_bool(buffer, c, 7, request.state_lookup);
    let e = put_bool(buffer, d, 8, request.flush);
    put_bool(buffer, e, 9, request.finish_write)
}

// Writes the request to the front of the buffer, and answers how many bytes it took. Its data is the front of what is lent: of the out buffer as the call that handed it out left it.
// Refused with 14, and nothing is written, where the data lent or the buffer is too short.
pub fn write(request: Request, data: &[u8], buffer: &mut [u8]) -> Result<usize, Refusal>
    ensures { Writes request «data».now buffer.old result buffer.new }
{
    refuse_if(data.len() < length_of(request.data), Refusal::ShortBuffer)?;
    refuse_if(buffer.len() < encoded_len(request), Refusal::ShortBuffer)?;
    Ok(put_fields(buffer, data, request))
}
