// Ported from google-cloud-storage 1.21.0, src/storage/bidi_write/transport.rs, Copyright 2026 Google LLC (Apache-2.0); changed: no tasks, channels or heap.
// Close: "needs the live phase and stored below capacity. Held bytes are not sent."
ghost use Rattle.rules.specs.Session as R;
ghost use Rattle.transport.specs.View.{left};
ghost use Rattle.transport.specs.Promise.{Promised};

use crate::parts::set_phase;
use crate::phases::phase_number;
use crate::{Answer, Outcome, Phase, Sent, Session};
use bidi_write::Refusal;

pub fn close(s: Session) -> Result<Outcome, Refusal>
    ensures { Promised R.close s (left s result) }
{
    admission::close(
        phase_number(s.phase),
        replay_buffer::is_full(s.worker.replay_buffer),
    )?;
    Ok(Outcome {
        session: set_phase(s, Phase::Closing, Sent::Nothing),
        answer: Answer::Accepted,
    })
}
