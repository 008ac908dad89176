// An opening, and the lengths of what is lent to its session.
use crate::fields::{Field, take};
use crate::message;
use bidi_write::{Generation, Metageneration, Offset};
use openings::Opening;

#[derive(Clone, Copy)]
pub struct Lent {
    pub store: usize,
    pub slots: usize,
    pub out: usize,
}

// An opening, with its names, handles, token and payload; what is not given is empty.
#[derive(Clone, Copy)]
pub struct Opens<'a> {
    pub lent: Lent,
    pub opening: Opening,
    pub bucket: &'a [u8],
    pub object: &'a [u8],
    pub routing_token: &'a [u8],
    pub write_handle: &'a [u8],
    pub payload: &'a [u8],
    pub response_handle: &'a [u8],
}

impl<'a> Field<'a> for Lent {
    fn take(input: &mut &'a [u8]) -> Option<Lent> {
        Some(Lent {
            store: take::<u16>(input)? as usize,
            slots: take::<u16>(input)? as usize,
            out: take::<u16>(input)? as usize,
        })
    }
}

impl<'a> Field<'a> for Opens<'a> {
    fn take(input: &mut &'a [u8]) -> Option<Opens<'a>> {
        let lent = take(input)?;
        let limit = take::<u32>(input)?;
        let asked = take::<Option<u32>>(input)?;
        let last_persisted_size = take(input).map(Offset)?;
        let append = take(input)?;
        let bucket = take(input)?;
        let object = take(input)?;
        let generation = take(input).map(Generation)?;
        let routing_token = take::<Option<&'a [u8]>>(input)?;
        let write_handle = take::<Option<&'a [u8]>>(input)?;
        let matching = take::<Option<i64>>(input)?;
        let not_matching = take::<Option<i64>>(input)?;
        let payload = take::<Option<&'a [u8]>>(input)?;
        let (response, response_handle) = message::response(input)?;
        let checksum = take(input)?;
        let opening = Opening {
            limit: limit as usize,
            capacity: asked.map(|n| n as usize),
            append,
            generation,
            has_write_handle: write_handle.is_some(),
            has_routing_token: routing_token.is_some(),
            if_metageneration_match: matching.map(Metageneration),
            if_metageneration_not_match: not_matching.map(Metageneration),
            response,
            checksum,
            has_payload: payload.is_some(),
            last_persisted_size,
        };
        Some(Opens {
            lent,
            opening,
            bucket,
            object,
            routing_token: routing_token.unwrap_or(&[]),
            write_handle: write_handle.unwrap_or(&[]),
            payload: payload.unwrap_or(&[]),
            response_handle,
        })
    }
}
