// Whether an opening or a call goes on: the rows of its tests, on plain numbers, in the papers' order: "Opening checks 1 to 5 in order. Later calls check 7, 12, 6,
// 13, 4, 11, 8, 9, 10, as far as they apply", and 15 "between 13 and 4".
#![tactic(auto, unfolding(bidi_write::specs::Refusal::checked))]

ghost use Rattle.std.specs.Prelude.{◌≡◌, not, ◌||◌, ◌+◌, ◌-◌, ◌^◌, ltb, eqb};
ghost use Rattle.bidi_write.specs.Numbers.{to_ℕ};
ghost use Rattle.bidi_write.specs.Refusal.{checked};
ghost use Rattle.admission.specs.Rows.{bad_limits, open_rows, upload_tests, close_rows, message_rows, break_rows, judge_rows, fail_rows, next_rows, unsent_rows};

use bidi_write::{MAX_CAPACITY, MAX_WRITE_CHUNK_SIZE, Offset, Refusal, refuse_if};

// The phases as numbers: the rows of each call are over any number (`close_rows` and the rest).
pub const LIVE: u8 = 1;

pub const VERDICT: u8 = 2;

pub const CONNECTING: u8 = 3;

pub const REPLAY: u8 = 4;

pub const CLOSING: u8 = 5;

pub const ENDED: u8 = 6;

// A stream is there in live and closing.
pub fn is_streaming(phase: u8) -> bool
    ensures { result ≡ (eqb phase 1 || eqb phase 5) }
{
    phase == LIVE || phase == CLOSING
}

// A chunk limit, or a capacity asked for, that no opening admits.
pub fn bad_limits(limit: usize, asked: usize) -> bool
    ensures { result ≡ bad_limits limit asked }
{
    limit == 0 || MAX_WRITE_CHUNK_SIZE < limit || MAX_CAPACITY < asked
}

// A store shorter than the ring, or a table without a slot.
pub fn short_memory(ring: usize, store: usize, slots: usize) -> bool
    ensures { result ≡ (ltb store ring || eqb slots 0) }
{
    store < ring || slots == 0
}

// An opening whose limits are good.
pub fn open(
    short: bool,
    named: bool,
    long_object: bool,
    long_token: bool,
    long_handle: bool,
    long_answer: bool,
    long_payload: bool,
    finalized: bool,
) -> Result<(), Refusal>
    ensures { result ≡ checked (open_rows short (not named) long_object long_token long_handle long_answer long_payload finalized) }
{
    refuse_if(short, Refusal::ShortMemory)?;
    refuse_if(!named, Refusal::BadBucket)?;
    refuse_if(long_object, Refusal::TooLong)?;
    refuse_if(long_token, Refusal::TooLong)?;
    refuse_if(long_handle, Refusal::TooLong)?;
    refuse_if(long_answer, Refusal::TooLong)?;
    refuse_if(long_payload, Refusal::TooLong)?;
    refuse_if(finalized, Refusal::Finalized)
}

// "A chunk would end past 2^63 − 1": one of n bytes at the write offset.
fn past_end(write_offset: Offset, n: usize) -> bool
    ensures { result ≡ ltb (2 ^ 63 - 1) (to_ℕ write_offset.0 + n) }
{
    0x7fff_ffff_ffff_ffff - bidi_write::to_nat(write_offset) < n as u64
}

// An append, flush or finalise that sends or not, and cuts a chunk of n bytes or not. `no_room`: for its chunk, or for its waiter.
pub fn upload(
    phase: u8,
    finalized: bool,
    limit: usize,
    capacity: usize,
    stored: usize,
    write_offset: Offset,
    sends: bool,
    cuts: bool,
    n: usize,
    out: usize,
    no_room: bool,
) -> Result<(), Refusal>
    ensures { result ≡ upload_tests phase finalized limit capacity stored write_offset.0 sends cuts n out no_room }
{
    let past = past_end(write_offset, n);
    refuse_if(phase == ENDED, Refusal::Ended)?;
    // "after close or a finalise's waiter"
    refuse_if(phase == CLOSING || finalized, Refusal::Closed)?;
    refuse_if(sends && phase != LIVE, Refusal::WrongPhase)?;
    refuse_if(cuts && out < limit, Refusal::ShortOut)?;
    refuse_if(sends && capacity <= stored, Refusal::Full)?;
    refuse_if(no_room, Refusal::NoRoom)?;
    refuse_if(cuts && past, Refusal::PastEnd)
}

pub fn close(phase: u8, full: bool) -> Result<(), Refusal>
    ensures { result ≡ checked (close_rows phase full) }
{
    refuse_if(phase == ENDED, Refusal::Ended)?;
    refuse_if(phase != LIVE, Refusal::WrongPhase)?;
    refuse_if(full, Refusal::Full)
}

// A response, or a handshake, whose phases differ.
pub fn message(ended: bool, wrong_phase: bool, long: bool) -> Result<(), Refusal>
    ensures { result ≡ checked (message_rows ended wrong_phase long) }
{
    refuse_if(ended, Refusal::Ended)?;
    refuse_if(wrong_phase, Refusal::WrongPhase)?;
    refuse_if(long, Refusal::TooLong)
}

pub fn stream_break(phase: u8, malformed: bool, long: bool) -> Result<(), Refusal>
    ensures { result ≡ checked (break_rows phase malformed long) }
{
    let streams = is_streaming(phase);
    refuse_if(phase == ENDED, Refusal::Ended)?;
    refuse_if(!streams, Refusal::WrongPhase)?;
    refuse_if(malformed, Refusal::Malformed)?;
    refuse_if(long, Refusal::TooLong)
}

pub fn judge(phase: u8, valid: bool) -> Result<(), Refusal>
    ensures { result ≡ checked (judge_rows phase valid) }
{
    refuse_if(phase == ENDED, Refusal::Ended)?;
    refuse_if(phase != VERDICT, Refusal::WrongPhase)?;
    refuse_if(!valid, Refusal::BadVerdict)
}

pub fn failed_attempt(phase: u8, valid: bool, malformed: bool, long: bool) -> Result<(), Refusal>
    ensures { result ≡ checked (fail_rows phase valid malformed long) }
{
    refuse_if(phase == ENDED, Refusal::Ended)?;
    refuse_if(phase != CONNECTING, Refusal::WrongPhase)?;
    refuse_if(!valid, Refusal::BadVerdict)?;
    refuse_if(malformed, Refusal::Malformed)?;
    refuse_if(long, Refusal::TooLong)
}

pub fn next_request(phase: u8, short: bool) -> Result<(), Refusal>
    ensures { result ≡ checked (next_rows phase short) }
{
    refuse_if(phase == ENDED, Refusal::Ended)?;
    refuse_if(phase != REPLAY, Refusal::WrongPhase)?;
    refuse_if(short, Refusal::ShortOut)
}

pub fn send_failed(phase: u8, nothing: bool) -> Result<(), Refusal>
    ensures { result ≡ checked (unsent_rows phase nothing) }
{
    refuse_if(phase == ENDED, Refusal::Ended)?;
    refuse_if(nothing, Refusal::WrongPhase)
}
