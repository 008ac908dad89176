// The lines of document 01's bench program, each by value.
#![tactic(auto)]

mod words;

ghost use Rattle.std.specs.Prelude.{◌≡◌, ◌≤◌, length};
ghost use Rattle.rules.specs.Message.{Bytes};
ghost use Rattle.transport.specs.View.{answer_of, sent_length};
ghost use Rattle.bench_lines.specs.Text.{line_of};
ghost use Rattle.text.specs.Line.{text_of};
ghost use Rattle.bench_lines.specs.View.{open_answer_of};

use crate::words::{begun, says};
use bidi_write::Refusal;
use text::Line;
use transport::Answer;

// What a line begins with: the call that it is printed for. The bench program makes all but the last two.
#[derive(Clone, Copy)]
pub enum Mark {
    Open,
    Append,
    Flush,
    Finalise,
    Close,
    Response,
    Handshake,
    Break,
    Verdict,
    Next,
    SendFailed,
    FailedAttempt,
}

// The line that a call's answer prints, with its end. The data of its request is in an out buffer that has room for it.
pub fn line(mark: Mark, answer: Result<Answer, Refusal>) -> Line
    ensures { (out : Bytes) → sent_length answer ≤ length out → text_of result ≡ line_of mark (answer_of answer out) }
{
    says(begun(mark), mark, answer).byte(b'\n')
}

// The line that an opening's answer prints.
pub fn opening_line(answer: Result<(), Refusal>) -> Line
    ensures { text_of result ≡ line_of Mark.Open (open_answer_of answer) }
{
    line(Mark::Open, answer.map(|()| Answer::Accepted))
}
