// What a list of appends and flushes will need, by arithmetic: no session is run, and no byte is looked at.
#![tactic(auto)]

ghost use Rattle.std.specs.Prelude.{◌≡◌, ◌*◌, ◌/◌, ◌^◌, ◌≤◌, ◌<◌, length};
ghost use Rattle.std.proofs.Math.Option.{some};
ghost use Rattle.plan_rules.specs.Plan.{plans};
ghost use Rattle.plan_rules.specs.Counting.{one_for, nothing_yet, flushed, appended, counted, counted_all};
ghost use Rattle.planning.specs.Answer.{plan_of, answer_of, Roomy};

use admission::bad_limits;
use bidi_write::{Refusal, refuse_if};

// The most entries of a list.
pub const MAX_ENTRIES: usize = 65536;

// What a session opened at offset 0 without a payload shows behind a list, if no report ever comes and nothing is refused.
//
// All of it fits, far below 2^64: 65,536 entries bring fewer than 2^48 bytes; a chunk has a byte at least; each append call cuts a chunk or is the last of its
// entry; an entry makes at most two flush calls.
#[derive(Clone, Copy, Default)]
pub struct Needs {
    // cut, each of which fills a slot
    pub chunks: u64,
    // bytes
    pub stored: u64,
    pub held: u64,
    // calls
    pub appends: u64,
    pub flushes: u64,
}

// What is needed, from the chunk limit and a list of append lengths, 0 for a flush. Refused with 1 or 16.
pub fn plan(limit: usize, lengths: &[u32]) -> Result<Needs, Refusal>
    ensures { plans limit lengths.now ≡ some (answer_of result) }
{
    // the opening's own test, of a capacity that is in range
    refuse_if(bad_limits(limit, 0), Refusal::Limits)?;
    refuse_if(MAX_ENTRIES < lengths.len(), Refusal::TooManyEntries)?;
    Ok(all(limit as u32, lengths))
}

fn all(limit: u32, lengths: &[u32]) -> Needs
    requires limit_nonzero { 0 < limit }
    requires lengths_len_bound { length lengths.now ≤ 65536 }
    ensures result_value { plan_of result ≡ counted_all limit lengths.now nothing_yet }
    ensures stored_bound { result.stored < 2 ^ 48 }
{
    let mut needs = Needs::default();
    for &n in lengths {
        needs = entry(limit, needs, n);
    }
    needs
}

#[tactic(auto, unfolding(plan_rules::specs::Counting::counted))]
fn entry(limit: u32, needs: Needs, n: u32) -> Needs
    requires held_lt_limit { needs.held < limit }
    requires roomy { Roomy (plan_of needs) }
    ensures result_value { plan_of result ≡ counted limit n (plan_of needs) }
    ensures n_bound { n < 2 ^ 32 }
{
    if n == 0 {
        flush(needs)
    } else {
        append(limit, needs, n)
    }
}

// Held bytes are cut by a call of their own; the next call waits.
fn flush(needs: Needs) -> Needs
    requires { Roomy (plan_of needs) }
    ensures { plan_of result ≡ flushed (plan_of needs) }
{
    let cut = one_for(needs.held);
    Needs {
        chunks: needs.chunks + cut,
        stored: needs.stored + needs.held,
        held: 0,
        flushes: needs.flushes + 1 + cut,
        ..needs
    }
}

// The entry's own division does not wait for what the entries before it left held.
fn append(limit: u32, needs: Needs, n: u32) -> Needs
    requires held_lt_limit { needs.held < limit }
    requires n_nonzero { 0 < n }
    requires roomy { Roomy (plan_of needs) }
    ensures { plan_of result ≡ counted limit n (plan_of needs) }
{
    let left = needs.held + u64::from(n % limit);
    let whole = u64::from(n / limit);
    let limit = u64::from(limit);
    let more = filled(left, limit);
    cut(limit, needs, whole + more, left - more * limit)
}

// The chunks that fewer than two chunks' bytes fill: a number, so that no jump asks which.
fn filled(bytes: u64, limit: u64) -> u64
    requires { bytes < 2 * limit }
    ensures value { result ≡ bytes / limit }
    ensures upper_bound { result ≤ 1 }
{
    u64::from(limit <= bytes)
}

// Each whole chunk takes a call, and so does what is left over.
fn cut(limit: u64, needs: Needs, whole: u64, left: u64) -> Needs
    requires roomy { Roomy (plan_of needs) }
    requires whole_bound { (whole < 2 ^ 33) × (whole * limit < 2 ^ 33) }
    ensures { plan_of result ≡ appended limit whole left (plan_of needs) }
{
    Needs {
        chunks: needs.chunks + whole,
        stored: needs.stored + whole * limit,
        held: left,
        appends: needs.appends + whole + one_for(left),
        ..needs
    }
}

fn one_for(bytes: u64) -> u64
    ensures value { result ≡ one_for bytes }
    ensures upper_bound { result ≤ 1 }
{
    u64::from(bytes != 0)
}
