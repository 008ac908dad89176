// The phase as a number.
ghost use Rattle.std.specs.Prelude.{◌≡◌};
ghost use Rattle.rules.specs.Session.{phase_number};
ghost use Rattle.transport.specs.View.{phase_of};

use crate::Phase;
use admission::{CLOSING, CONNECTING, ENDED, LIVE, REPLAY, VERDICT};

pub fn phase_number(p: Phase) -> u8
    ensures { result ≡ phase_number (phase_of p) }
{
    match p {
        Phase::Live => LIVE,
        Phase::Verdict(_) => VERDICT,
        Phase::Connecting => CONNECTING,
        Phase::Replay(_) => REPLAY,
        Phase::Closing => CLOSING,
        Phase::Ended(_) => ENDED,
    }
}
