// Ported from google-cloud-storage 1.21.0, src/storage/bidi_write.rs, Copyright 2026 Google LLC (Apache-2.0); changed: no tasks, channels or heap.
// The messages that a session sends and is told, its calls, and why it refuses one. Bytes stand beside a record: a request's data at the front of the out buffer,
// what a call brings in slices.
#![tactic(auto)]

ghost use Rattle.std.specs.Prelude.{◌≡◌, cond, Ok, Err, ◌+◌, ◌<◌, ◌≤◌, ◌^◌, pos, ◌+ℤ◌, ◌-ℤ◌};
ghost use Rattle.std.specs.Int.Signed.{lt_z};
ghost use Rattle.std.specs.Int.{w64};
ghost use Rattle.std.proofs.Common.{to_z};
ghost use Rattle.bidi_write.specs.Numbers.{to_ℕ, Differs};
ghost use Rattle.bidi_write.specs.Refusal.{number_of};
ghost use Rattle.bidi_write.specs.View.{size_of, status_of};
ghost use Rattle.rules.specs.Message.{is_finalized};
ghost use Rattle.rules.specs.Message as M;

// Maximum payload chunk size for a single write request (2 MiB).
pub const MAX_WRITE_CHUNK_SIZE: usize = 2 * 1024 * 1024;

// The most that a capacity may be asked for (1 GiB), and what an opening has that names none (32 MiB).
pub const MAX_CAPACITY: usize = 1024 * 1024 * 1024;

pub const DEFAULT_CAPACITY: usize = 32 * 1024 * 1024;

// An offset in the object, or a size of it.
#[derive(Clone, Copy)]
pub struct Offset(pub i64);

// The difference of two offsets, which takes 65 bits: how far the first is below the second, or how far it is not.
#[derive(Clone, Copy)]
pub enum Difference {
    Below(u64),
    AtLeast(u64),
}

// A generation of the object.
#[derive(Clone, Copy)]
pub struct Generation(pub i64);

// A metageneration of the object, which counts the changes of its metadata.
#[derive(Clone, Copy)]
pub struct Metageneration(pub i64);

// The data of a request: its bytes fill the front of the out buffer.
#[derive(Clone, Copy)]
pub struct ChecksummedData {
    pub length: usize,
    pub crc32c: u32,
}

// A request after opening. First message and request parameters are absent in all of them.
#[derive(Clone, Copy)]
pub struct Request {
    pub write_offset: Offset,
    pub data: Option<ChecksummedData>,
    pub object_checksums: Option<u32>,
    pub state_lookup: bool,
    pub flush: bool,
    pub finish_write: bool,
}

#[derive(Clone, Copy)]
pub struct Resource {
    pub size: Offset,
    pub generation: Generation,
    pub finalized: bool,
}

#[derive(Clone, Copy)]
pub enum WriteStatus {
    PersistedSize(Offset),
    Resource(Resource),
}

// A response; the handle's bytes come beside it.
#[derive(Clone, Copy)]
pub struct Response {
    pub write_status: Option<WriteStatus>,
    pub has_write_handle: bool,
}

// What a redirect's detail says; the token's and the handle's bytes come beside it.
#[derive(Clone, Copy)]
pub struct Redirect {
    pub has_routing_token: bool,
    pub has_write_handle: bool,
    pub generation: Option<Generation>,
}

// The detail of a status, which redirects or is absent; its value, as received, comes beside it.
#[derive(Clone, Copy)]
pub enum Detail {
    Absent,
    Redirect,
}

#[derive(Clone, Copy)]
pub struct Status {
    pub code: u32,
    pub detail: Detail,
}

// How a stream broke.
#[derive(Clone, Copy)]
pub enum Break {
    EndOfStream,
    Status(Status),
    Error,
}

// Why a session ended.
#[derive(Clone, Copy)]
pub enum Cause {
    Finished,
    Regressed,
    Beyond,
    AlreadyFinalized,
    Permanent,
    Exhausted,
    GivenUp,
    StreamError,
}

// A call after opening. An append's data, a response's handle or the value of a break's detail comes beside it.
#[derive(Clone, Copy)]
pub enum Call {
    Append,
    Flush,
    Finalise,
    NextRequest,
    Close,
    SendFailed,
    Response(Response),
    Handshake(Response),
    Break(Break),
    Judge(u8),
    FailedAttempt(Break, u8),
}

// Why a call was refused: the papers' numbers 1 to 16, in their order.
#[derive(Clone, Copy)]
pub enum Refusal {
    Limits,
    ShortMemory,
    BadBucket,
    TooLong,
    Finalized,
    WrongPhase,
    Ended,
    Full,
    NoRoom,
    PastEnd,
    ShortOut,
    Closed,
    BadVerdict,
    ShortBuffer,
    Malformed,
    TooManyEntries,
}

// The acknowledged byte count that a response states.
pub fn persisted_size(s: Option<WriteStatus>) -> Option<Offset>
    ensures { size_of result ≡ M.size_of (status_of s) }
{
    match s {
        None => None,
        Some(WriteStatus::PersistedSize(n)) => Some(n),
        Some(WriteStatus::Resource(r)) => Some(r.size),
    }
}

// Whether a response reports an object that the service finalized.
pub fn is_finalized(s: Option<WriteStatus>) -> bool
    ensures { result ≡ is_finalized (status_of s) }
{
    match s {
        None => false,
        Some(WriteStatus::PersistedSize(_)) => false,
        Some(WriteStatus::Resource(r)) => r.finalized,
    }
}

// The order of sizes and offsets, below, at and above zero.
pub fn below(a: Offset, b: Offset) -> bool
    ensures { result ≡ lt_z a.0 b.0 }
{
    a.0 < b.0
}

pub fn is_negative(a: Offset) -> bool
    ensures { result ≡ lt_z a.0 (pos 0) }
{
    a.0 < 0
}

// The offset in the order of the unsigned numbers: -2^63 is 0.
fn raised(a: Offset) -> u64
    ensures { pos result ≡ a.0 +ℤ pos (2 ^ 63) }
{
    if a.0 < 0 {
        return (a.0 - i64::MIN) as u64;
    }
    a.0 as u64 + 0x8000_0000_0000_0000
}

// a - b, for any two.
pub fn subtract(a: Offset, b: Offset) -> Difference
    ensures { Differs a.0 b.0 result }
{
    let x = raised(a);
    let y = raised(b);
    if x < y {
        return Difference::Below(y - x);
    }
    Difference::AtLeast(x - y)
}

// The offset n bytes further on.
pub fn plus(a: Offset, n: usize) -> Offset
    requires { to_ℕ a.0 + n < 2 ^ 63 }
    ensures { result.0 ≡ a.0 +ℤ pos n }
{
    Offset(a.0 + n as i64)
}

// The offset n bytes before.
pub fn minus(a: Offset, n: usize) -> Offset
    requires { n ≤ to_ℕ a.0 }
    ensures { result.0 ≡ a.0 -ℤ pos n }
{
    Offset(a.0 - n as i64)
}

// The number, and 0 for one below 0.
pub fn to_nat(a: Offset) -> u64
    ensures { (result ≡ to_ℕ a.0) × (result < 2 ^ 63) }
{
    if a.0 < 0 { 0 } else { a.0 as u64 }
}

pub fn from_nat(n: u64) -> Offset
    requires { n < 2 ^ 63 }
    ensures { result ≡ record { 0 = pos n } }
{
    Offset(n as i64)
}

// The upper half of the 64-bit numbers stands for those below zero.
pub fn i64_of(n: u64) -> i64
    ensures { result ≡ to_z w64 n }
{
    if n < 0x8000_0000_0000_0000 {
        return n as i64;
    }
    -1 - (0xFFFF_FFFF_FFFF_FFFF - n) as i64
}

// ---- refusals

// The papers' number of a refusal.
pub fn refusal_number(x: Refusal) -> u64
    ensures { result ≡ number_of x }
{
    match x {
        Refusal::Limits => 1,
        Refusal::ShortMemory => 2,
        Refusal::BadBucket => 3,
        Refusal::TooLong => 4,
        Refusal::Finalized => 5,
        Refusal::WrongPhase => 6,
        Refusal::Ended => 7,
        Refusal::Full => 8,
        Refusal::NoRoom => 9,
        Refusal::PastEnd => 10,
        Refusal::ShortOut => 11,
        Refusal::Closed => 12,
        Refusal::BadVerdict => 13,
        Refusal::ShortBuffer => 14,
        Refusal::Malformed => 15,
        Refusal::TooManyEntries => 16,
    }
}

// A row of a call's tests: where the test holds, it refuses. The rows of a call stand in the paper's order, and `?` lets the first that refuses answer.
pub fn refuse_if(test: bool, x: Refusal) -> Result<(), Refusal>
    ensures { result ≡ cond test (Err x) (Ok tt) }
{
    if test {
        return Err(x);
    }
    Ok(())
}
