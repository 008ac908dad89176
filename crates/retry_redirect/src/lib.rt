// Ported from google-cloud-storage 1.21.0, src/storage/bidi_write/retry_redirect.rs, Copyright 2026 Google LLC (Apache-2.0); changed: no tasks, channels or heap.
#![tactic(auto)]

ghost use Rattle.std.specs.Prelude.{◌≡◌, not};
ghost use Rattle.retry_redirect.specs.View.{result_of};
ghost use Rattle.rules.specs.Reconnect.{ruling, no_verdict};

use bidi_write::Cause;

// Maximum redirects followed between progress before giving up.
pub const MAX_REDIRECTS_FOLLOWED: u32 = 3;

// The verdicts of the host's policy, with 1, continue. They stay numbers: a host may bring any, and `ruling` is over any.
const PERMANENT: u8 = 2;

const EXHAUSTED: u8 = 3;

const GIVEN_UP: u8 = 4;

pub fn is_verdict(v: u8) -> bool
    ensures { result ≡ not (no_verdict v) }
{
    1 <= v && v <= GIVEN_UP
}

// Redirects are control flow, not failures: the first three go on, whatever the policy says of the error.
pub fn on_error(redirect: bool, redirects_followed: u32, verdict: u8) -> Result<(), Cause>
    ensures { result_of result ≡ ruling redirect redirects_followed verdict }
{
    if verdict == GIVEN_UP {
        return Err(Cause::GivenUp);
    }
    if redirect && redirects_followed < MAX_REDIRECTS_FOLLOWED {
        return Ok(());
    }
    match verdict {
        PERMANENT => Err(Cause::Permanent),
        EXHAUSTED => Err(Cause::Exhausted),
        _ if redirect => Err(Cause::Exhausted),
        _ => Ok(()),
    }
}
