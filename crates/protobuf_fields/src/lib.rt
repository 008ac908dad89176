// Reads varints and fields from the caller's bytes, in place: an answer holds numbers and places of the slice, no bytes.
#![tactic(auto)]

ghost use Rattle.std.specs.Prelude.{◌≡◌, ◌≤◌, length, drop};
ghost use Rattle.protobuf_format.specs.Varint.{groups, varint};
ghost use Rattle.protobuf_format.specs.Field.{read_value, read_field};
ghost use Rattle.protobuf_fields.specs.Got.{Reads};
ghost use Rattle.protobuf_fields.specs.Found.{Finds};
ghost use Rattle.protobuf_fields.specs.Parts.{small, more_of, Values};

// Wire types.
const VARINT: u64 = 0;

const I64: u64 = 1;

const LEN: u64 = 2;

const I32: u64 = 5;

// The greatest number that a field may have.
const LAST_NUMBER: u64 = (1 << 29) - 1;

// A group has seven bits; a byte of MORE or more says that another group follows.
const MORE: u64 = 1 << 7;

// A varint has no more groups.
const GROUPS: usize = 10;

// The number behind the lowest group is less, in 64 bits.
const HIGH: u64 = 1 << 57;

// The bytes are no varint, or no field.
#[derive(Clone, Copy)]
pub struct Malformed;

// Where some bytes start, and how many they are.
#[derive(Clone, Copy)]
pub struct Part {
    pub start: usize,
    pub len: usize,
}

impl Part {
    ghost use Rattle.std.specs.Prelude.{◌+◌};
    ghost use Rattle.protobuf_fields.specs.Found.{bytes_in};

    // Those bytes of the slice.
    pub fn of<'a>(self, s: &'a [u8]) -> &'a [u8]
        requires { self.start + self.len ≤ length s.now }
        ensures { result.now ≡ bytes_in s.now self }
    {
        &s[self.start..self.start + self.len]
    }
}

// A value by its wire type: the number, or where its bytes are; of eight or four bytes, where they start.
#[derive(Clone, Copy)]
pub enum Value {
    Int(u64),
    Fixed64(usize),
    Bytes(Part),
    Fixed32(usize),
}

// A field, and the place behind it.
#[derive(Clone, Copy)]
pub struct Field {
    pub number: u64,
    pub value: Value,
    pub next: usize,
}

// The byte b, which another follows, and the number n behind it.
fn more(b: u64, n: u64) -> Result<u64, Malformed>
    ensures { result ≡ more_of b n }
{
    if n < HIGH {
        Ok(b % MORE + MORE * n)
    } else {
        Err(Malformed)
    }
}

// A number of at most k groups, and the place behind it.
#[tactic(auto, using(crate::proofs::Groups::none_left, crate::proofs::Groups::no_byte, crate::proofs::Groups::too_high, crate::proofs::Groups::more_byte))]
fn get_groups(s: &[u8], at: usize, k: usize) -> Result<(u64, usize), Malformed>
    ensures { Reads result s.now at (small (groups k (drop at s.now))) }
{
    if k == 0 || s.len() <= at {
        return Err(Malformed);
    }
    let b = u64::from(s[at]);
    if b < MORE {
        return Ok((b, at + 1));
    }
    let (n, next) = get_groups(s, at + 1, k - 1)?;
    Ok((more(b, n)?, next))
}

// The varint at a place, and the place behind it. One of a single byte, as most are, takes no further call.
#[tactic(auto, using(crate::proofs::Groups::no_byte, crate::proofs::Groups::too_high, crate::proofs::Groups::more_byte), unfolding(protobuf_format::specs::Varint::varint))]
pub fn get_varint(s: &[u8], at: usize) -> Result<(u64, usize), Malformed>
    ensures { Reads result s.now at (varint (drop at s.now)) }
{
    if s.len() <= at {
        return Err(Malformed);
    }
    let b = u64::from(s[at]);
    if b < MORE {
        return Ok((b, at + 1));
    }
    let (n, next) = get_groups(s, at + 1, GROUPS - 1)?;
    Ok((more(b, n)?, next))
}

// The value at a place, by its wire type, and the place behind it. Groups, which are types 3 and 4, are malformed.
#[tactic(auto, using(crate::proofs::Wire::int_some, crate::proofs::Wire::eight_none, crate::proofs::Wire::eight_some, crate::proofs::Wire::bytes_cut, crate::proofs::Wire::bytes_some, crate::proofs::Wire::four_none, crate::proofs::Wire::four_some, crate::proofs::Wire::no_value))]
fn get_value(s: &[u8], wire_type: u64, at: usize) -> Result<(Value, usize), Malformed>
    requires { at ≤ length s.now }
    ensures { Values result s.now at (read_value wire_type (drop at s.now)) }
{
    match wire_type {
        VARINT => {
            let (n, next) = get_varint(s, at)?;
            Ok((Value::Int(n), next))
        }
        I64 if 8 <= s.len() - at => Ok((Value::Fixed64(at), at + 8)),
        LEN => {
            let (count, start) = get_varint(s, at)?;
            let len = count as usize;
            if s.len() - start < len {
                return Err(Malformed);
            }
            Ok((Value::Bytes(Part { start, len }), start + len))
        }
        I32 if 4 <= s.len() - at => Ok((Value::Fixed32(at), at + 4)),
        _ => Err(Malformed),
    }
}

// The field at a place.
#[tactic(auto, using(crate::proofs::Wire::number_zero, crate::proofs::Wire::number_high, crate::proofs::Wire::key_value))]
pub fn get_field(s: &[u8], at: usize) -> Result<Field, Malformed>
    ensures { Finds result s.now at (read_field (drop at s.now)) }
{
    let (key, start) = get_varint(s, at)?;
    let number = key / 8;
    if number == 0 || LAST_NUMBER < number {
        return Err(Malformed);
    }
    let (value, next) = get_value(s, key % 8, start)?;
    Ok(Field {
        number,
        value,
        next,
    })
}
