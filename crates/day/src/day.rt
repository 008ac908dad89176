// A day: open, and then call after call until the session has ended. Here alone is the session.
use crate::bank::Trouble;
use crate::message;
use crate::server::Said;
use crate::tally::Tally;
use crate::world::World;
use bidi_write::{Generation, Offset};
use openings::{Opened, Opening};

// An event is one to three chunks; one of three reaches the watermark, 8,192 bytes.
const LIMIT: usize = 4096;

const CAPACITY: usize = 16384;

// More calls than a day can need.
const MOST_CALLS: u64 = 10000000;

// The store is the ring's size, capacity + 2 * limit - 2. A message has at most 39 bytes more than its data. An event's copy may
// lie in two pieces; an append is lent it in one. The day goes into the tally; what went wrong is answered.
pub fn run(seed: u64, breaks: u64, tally: &mut Tally) -> Result<(), Trouble> {
    let mut store = [0u8; 24574];
    let mut table = [0u64; 64];
    let mut out = [0u8; 4096];
    let mut message = [0u8; 4135];
    let mut event = [0u8; 9000];
    let opened = open(&mut store, &mut table);
    let mut s = opened.session;
    let mut w = World::new(seed, breaks, opened.answer, opened.released);
    w.begin();
    for _ in 0..MOST_CALLS {
        let call = w.next();
        let data = w.copies.read(w.bank.bytes, w.bank.left(), &mut event);
        let bytes = message::beside(call, data, w.link.redirects);
        let answer = steps::step(&mut s, call, &mut store, &mut table, &mut out, bytes);
        w.heard(answer, &out, &mut message);
        if w.bank.is_over() {
            break;
        }
    }
    tally.add(&w);
    w.verdict()
}

// A new object, which the response names.
fn open(store: &mut [u8], table: &mut [u64]) -> Opened {
    let o = Opening {
        limit: LIMIT,
        capacity: Some(CAPACITY),
        append: false,
        generation: Generation(0),
        has_write_handle: false,
        has_routing_token: false,
        if_metageneration_match: None,
        if_metageneration_not_match: None,
        response: message::response(Said::Resource(0)),
        checksum: None,
        has_payload: false,
        last_persisted_size: Offset(0),
    };
    let none = b"";
    session::open(
        o,
        store,
        table,
        b"projects/_/buckets/lockers",
        b"journal",
        none,
        none,
        &message::HANDLE,
        none,
    )
}
