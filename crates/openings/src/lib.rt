// Ported from google-cloud-storage 1.21.0, src/storage/bidi_write/transport.rs, Copyright 2026 Google LLC (Apache-2.0); changed: no tasks, channels or heap.
// Opening: refusals 1 to 5 in order, else the session that the calls start from.
#![tactic(auto)]

mod starting;

ghost use Rattle.std.specs.Prelude.{◌≡◌};
ghost use Rattle.std.proofs.Math.Option.{get_or};
ghost use Rattle.rules.specs.Limits.{default_capacity};
ghost use Rattle.openings.specs.Opening.{beside, asked_of, Admits, Opens};

use crate::starting::{Started, capacity_for, start, unopened};
use admission::{bad_limits, short_memory};
use bidi_write::{
    DEFAULT_CAPACITY, Generation, Metageneration, Offset, Refusal, Response, refuse_if,
};
use replay_buffer::ring_size;
use state::{MAX_OBJECT, MAX_ROUTING_TOKEN, MAX_WRITE_HANDLE};
use transport::Session;

// The bytes of names, handles, token and payload come beside it.
#[derive(Clone, Copy)]
pub struct Opening {
    // the chunk limit in bytes
    pub limit: usize,
    // the one asked for; none is the default
    pub capacity: Option<usize>,
    // the spec is in the Append form
    pub append: bool,
    pub generation: Generation,
    pub has_write_handle: bool,
    pub has_routing_token: bool,
    pub if_metageneration_match: Option<Metageneration>,
    pub if_metageneration_not_match: Option<Metageneration>,
    pub response: Response,
    // of the persisted data, as the response states it
    pub checksum: Option<u32>,
    pub has_payload: bool,
    // the connector's
    pub last_persisted_size: Offset,
}

// After a refusal the session is one that ended: later calls refuse it too.
#[derive(Clone, Copy)]
pub struct Opened {
    pub session: Session,
    pub answer: Result<(), Refusal>,
    // bytes of the payload that were persisted already
    pub released: usize,
    // the writer's `generation` and `persisted_size`, as the opening left them
    pub generation: Generation,
    pub persisted_size: Offset,
}

pub fn open(
    o: Opening,
    store: &mut [u8],
    table: &mut [u64],
    bucket: &[u8],
    object: &[u8],
    write_handle: &[u8],
    routing_token: &[u8],
    response_handle: &[u8],
    payload: &[u8],
) -> Opened
    ensures { Opens o (beside bucket.now object.now write_handle.now routing_token.now response_handle.now payload.now) store.old table.old result store.new table.new }
{
    let answer = admit(
        o,
        store.len(),
        table.len(),
        bucket,
        object,
        write_handle,
        routing_token,
        response_handle,
        payload,
    );
    let started = match answer {
        Err(_) => Started {
            session: unopened(),
            released: 0,
        },
        Ok(()) => start(
            o,
            store,
            table,
            bucket,
            object,
            write_handle,
            routing_token,
            response_handle,
            payload,
        ),
    };
    Opened {
        session: started.session,
        answer,
        released: started.released,
        generation: started.session.worker.connector.spec.generation,
        persisted_size: started.session.worker.persisted_size,
    }
}

// "Opening checks 1 to 5 in order."
fn admit(
    o: Opening,
    store: usize,
    slots: usize,
    bucket: &[u8],
    object: &[u8],
    write_handle: &[u8],
    routing_token: &[u8],
    response_handle: &[u8],
    payload: &[u8],
) -> Result<(), Refusal>
    ensures { Admits o (beside bucket.now object.now write_handle.now routing_token.now response_handle.now payload.now) store slots result }
{
    let asked = asked_capacity(o.capacity);
    // what follows reckons with the limit
    refuse_if(bad_limits(o.limit, asked), Refusal::Limits)?;
    let capacity = capacity_for(asked, o.limit);
    admission::open(
        short_memory(ring_size(capacity, o.limit), store, slots),
        connector::is_bucket(bucket),
        MAX_OBJECT < object.len(),
        connector::over(o.has_routing_token, routing_token, MAX_ROUTING_TOKEN),
        // a Write form has no handle
        connector::over(
            o.append && o.has_write_handle,
            write_handle,
            MAX_WRITE_HANDLE,
        ),
        connector::handle_too_long(o.response, response_handle),
        connector::over(o.has_payload, payload, o.limit),
        bidi_write::is_finalized(o.response.write_status),
    )
}

pub fn asked_capacity(c: Option<usize>) -> usize
    ensures { result ≡ get_or (asked_of c) default_capacity }
{
    c.unwrap_or(DEFAULT_CAPACITY)
}
