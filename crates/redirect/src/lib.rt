// Ported from google-cloud-storage 1.21.0, src/storage/bidi_write/redirect.rs, Copyright 2026 Google LLC (Apache-2.0); changed: no tasks, channels or heap.
#![tactic(auto)]

ghost use Rattle.std.specs.Prelude.{◌≡◌};
ghost use Rattle.bidi_write.specs.View.{break_of, new_generation_of, redirect_of};
ghost use Rattle.rules.specs.Message as M;
ghost use Rattle.redirect_reader.specs.Places.{part_bytes, generation_in, seen_in};
ghost use Rattle.redirect.specs.Detail.{malformed_in, ReadsDetail};

use bidi_write::{Break, Detail, Generation, Redirect, Status, i64_of};
use protobuf_fields::Malformed;
use redirect_reader::{Seen, read_redirect};

// The gRPC code that a redirect comes with.
pub const ABORTED: u32 = 10;

// The detail of a break, read: where its token and handle lie in the value; none where the break has no detail.
pub type Reading = Result<Option<Seen>, Malformed>;

// Whether a break is a redirect. What its detail says does not matter.
pub fn is_redirect(b: Break) -> bool
    ensures { (value : M.Bytes) → result ≡ M.is_redirect (break_of b value) }
{
    match b {
        Break::Status(s) => s.code == ABORTED && matches!(s.detail, Detail::Redirect),
        Break::EndOfStream | Break::Error => false,
    }
}

// The detail of a break, read off its value.
pub fn read_detail(b: Break, value: &[u8]) -> Reading
    ensures { ReadsDetail result (break_of b value.now) value.now }
{
    match b {
        Break::Status(
            Status {
                detail: Detail::Redirect,
                ..
            },
        ) => Ok(Some(read_redirect(value)?)),
        _ => Ok(None),
    }
}

pub fn is_malformed(d: Reading) -> bool
    ensures { result ≡ malformed_in d }
{
    d.is_err()
}

// What a detail says, its bytes left where they are.
pub fn redirect_of(m: Seen) -> Redirect
    ensures { (value : M.Bytes) → redirect_of result (part_bytes value m.token) (part_bytes value m.handle) ≡ seen_in value m }
{
    Redirect {
        has_routing_token: m.token.is_some(),
        has_write_handle: m.handle.is_some(),
        generation: new_generation(m.generation),
    }
}

// Its 64 bits are a signed number's.
fn new_generation(bits: Option<u64>) -> Option<Generation>
    ensures { new_generation_of result ≡ generation_in bits }
{
    bits.map(|bits| Generation(i64_of(bits)))
}
