// A locker bank's day against a server that follows document 01's rules, over a link that breaks between any two messages.
// Arguments: seed, days, breaks a day; 1, 1 and 9 where they are left out.
#![tactic(auto)]

mod bank;
mod chance;
mod copies;
mod day;
mod journal;
mod link;
mod message;
mod print;
mod server;
mod tally;
mod world;

use std::env::{Env, FillError};
use tally::Tally;

const MOST_DAYS: u64 = 10000;

const MOST_BREAKS: u64 = 1000;

fn main(rt: HostRuntime) {
    match read(&rt) {
        Some(arguments) => report(arguments),
        None => print::usage(),
    }
}

// ---- the arguments

#[derive(Clone, Copy)]
struct Arguments {
    seed: u64,
    days: u64,
    // a day
    breaks: u64,
}

// None where they are not right.
fn read(env: &impl Env) -> Option<Arguments> {
    let seed = argument(env, 1, 1)?;
    let days = argument(env, 2, 1)?;
    let breaks = argument(env, 3, 9)?;
    if is_given(env, 4) || days == 0 || days > MOST_DAYS || breaks > MOST_BREAKS {
        return None;
    }
    Some(Arguments { seed, days, breaks })
}

// None where it is no number.
fn argument(env: &impl Env, i: usize, default: u64) -> Option<u64> {
    let mut word = [0u8; 18];
    match env.arg(i, &mut word) {
        // empty
        Ok(0) => None,
        Ok(n) => number(&word[..n]),
        Err(FillError::TooLong) => None,
        Err(FillError::NotPresent) => Some(default),
    }
}

fn is_given(env: &impl Env, i: usize) -> bool {
    let mut word = [0u8; 18];
    !matches!(env.arg(i, &mut word), Err(FillError::NotPresent))
}

fn number(digits: &[u8]) -> Option<u64> {
    let mut n = 0u64;
    for digit in digits {
        n = further(n, *digit)?;
    }
    Some(n)
}

// A digit more.
fn further(n: u64, digit: u8) -> Option<u64> {
    let value = digit.checked_sub(b'0').filter(|value| *value < 10)?;
    n.checked_mul(10)?.checked_add(u64::from(value))
}

// ---- the days

fn report(a: Arguments) {
    print::figure(b"seed", a.seed);
    print::figure(b"days", a.days);
    print::figure(b"breaks a day", a.breaks);
    let t = run(a);
    print::figures(&t);
    print::outcome(t.is_right());
}

// After a day that went wrong there is no other.
fn run(a: Arguments) -> Tally {
    let mut t = Tally::default();
    for day in 1..=a.days {
        print::figure(b"day", day);
        let key = chance::draw(a.seed, 867, 4294967296).wrapping_add(day);
        if let Err(trouble) = day::run(key, a.breaks, &mut t) {
            print::trouble(trouble);
            break;
        }
    }
    t
}
