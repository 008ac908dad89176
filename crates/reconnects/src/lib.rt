// Ported from google-cloud-storage 1.21.0, src/storage/bidi_write/connector.rs and retry_redirect.rs, Copyright 2026 Google LLC (Apache-2.0); changed: no tasks, channels or heap.
// Break, verdict and failed attempt: `Connector::reconnect` cut where the host dials, waits and judges.
#![tactic(auto)]

ghost use Rattle.std.specs.Prelude.{◌≡◌, false, cond};
ghost use Rattle.rules.specs.Message as M;
ghost use Rattle.rules.specs.Session as R;
ghost use Rattle.rules.specs.Reconnect.{on_redirect};
ghost use Rattle.bidi_write.specs.View.{break_of, cause_of};
ghost use Rattle.transport.specs.View.{left, phase_of};
ghost use Rattle.transport.specs.Promise.{Promised};
ghost use Rattle.reconnects.specs.Follows.{Follows, judged, awaits};

use admission::CLOSING;
use bidi_write::{Break, Cause, Refusal};
use connector::{Connector, too_long};
use redirect::{is_malformed, is_redirect, read_detail};
use retry_redirect::{is_verdict, on_error};
use transport::parts::{end, renew};
use transport::phases::phase_number;
use transport::{Answer, Outcome, Phase, Sent, Session};
use worker::is_complete;

// ---- break

// The value of a redirect's detail, as received, comes beside the break.
pub fn stream_break(s: Session, b: Break, detail: &[u8]) -> Result<Outcome, Refusal>
    ensures { Promised (R.break (break_of b detail.now)) s (left s result) }
{
    let phase = phase_number(s.phase);
    let d = read_detail(b, detail);
    admission::stream_break(phase, is_malformed(d), too_long(d))?;
    if is_complete(s.worker.finalized, s.worker.pending_requests.count) {
        return Ok(end(s, Cause::Finished, 0, 0));
    }
    if phase == CLOSING {
        return Ok(end(s, closing_cause(b), 0, 0));
    }
    let redirect = is_redirect(b);
    let connector = s
        .worker
        .connector
        .reconnect(d, detail, redirect, s.worker.persisted_size);
    Ok(await_verdict(s, connector, redirect))
}

// Closing: "an end of stream finishes, dropping waiters; another break ends with a stream error".
fn closing_cause(b: Break) -> Cause
    ensures { (detail : M.Bytes) → cause_of result ≡ cond (M.is_end (break_of b detail)) R.finished R.stream_error }
{
    match b {
        Break::EndOfStream => Cause::Finished,
        Break::Status(_) | Break::Error => Cause::StreamError,
    }
}

// The mark is cleared, and the host judges the break.
fn await_verdict(s: Session, c: Connector, redirect: bool) -> Outcome
    ensures { result ≡ awaits c redirect s }
{
    let after = s.worker.set_mark(false).set_connector(c);
    Outcome {
        session: renew(s, after, Phase::Verdict(redirect), Sent::Nothing),
        answer: Answer::Attempt(attempt_number(redirect, c.attempt_count)),
    }
}

// "a redirect answers 0"
fn attempt_number(redirect: bool, attempt_count: u32) -> u32
    ensures { result ≡ cond redirect 0 attempt_count }
{
    if redirect { 0 } else { attempt_count }
}

// ---- verdict and failed attempt

pub fn judge(s: Session, verdict: u8) -> Result<Outcome, Refusal>
    ensures { Promised (R.judge verdict) s (left s result) }
{
    admission::judge(phase_number(s.phase), is_verdict(verdict))?;
    Ok(on_verdict(s, is_on_redirect(s.phase), verdict))
}

// Whether a verdict on a redirect is awaited.
fn is_on_redirect(p: Phase) -> bool
    ensures { result ≡ on_redirect (phase_of p) }
{
    match p {
        Phase::Verdict(redirect) => redirect,
        _ => false,
    }
}

pub fn failed_attempt(s: Session, b: Break, detail: &[u8], verdict: u8) -> Result<Outcome, Refusal>
    ensures { Promised (R.failed_attempt (break_of b detail.now) verdict) s (left s result) }
{
    let d = read_detail(b, detail);
    admission::failed_attempt(
        phase_number(s.phase),
        is_verdict(verdict),
        is_malformed(d),
        too_long(d),
    )?;
    let rerouted = s.worker.connector.handle_redirect(d, detail);
    let after = renew(s, s.worker.set_connector(rerouted), s.phase, s.sent);
    Ok(on_verdict(after, is_redirect(b), verdict))
}

// Counts a redirect, and goes on or ends as the verdict on it says.
fn on_verdict(s: Session, redirect: bool, verdict: u8) -> Outcome
    ensures { R.is_ended (phase_of s.phase) ≡ false → Follows (judged redirect verdict) s result }
{
    let counted = s.worker.connector.count_redirect(redirect);
    let after = s.worker.set_connector(counted);
    match on_error(redirect, s.worker.connector.redirects_followed, verdict) {
        Ok(()) => Outcome {
            session: renew(s, after, Phase::Connecting, Sent::Nothing),
            answer: Answer::Accepted,
        },
        // Only an ended session has followed a fourth.
        Err(cause) => end(
            renew(s, after, Phase::Ended(cause), Sent::Nothing),
            cause,
            0,
            0,
        ),
    }
}
