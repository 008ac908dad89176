// The server's messages and the link's breaks, as the session is told of them.
use crate::link::Look;
use crate::server::Said;
use bidi_write::{
    Break, Call, Detail, Generation, Offset, Resource, Response, Status, WriteStatus,
};

// Status codes.
const UNAVAILABLE_CODE: u32 = 14;

const ABORTED_CODE: u32 = 10;

// Of the day's object.
const GENERATION: i64 = 7;

pub const HANDLE: [u8; 6] = *b"handle";

// The value of a redirect's detail, as two servers write it: token `token`, the handle, the generation. The second has an unknown field first, writes the
// generation before the rest, the token twice, and the handle in two messages, of which the last has an unknown field alone.
const DETAIL: [u8; 19] = *b"\x0a\x05token\x12\x08\x0a\x06handle\x18\x07";

const DETAIL_IN_PARTS: [u8; 33] =
    *b"\x22\x03new\x18\x07\x12\x08\x0a\x06handle\x0a\x03old\x12\x02\x10\x01\x0a\x05token";

pub fn response(said: Said) -> Response {
    Response {
        write_status: write_status(said),
        has_write_handle: !matches!(said, Said::Size(_)),
    }
}

fn write_status(said: Said) -> Option<WriteStatus> {
    match said {
        Said::Nothing => None,
        Said::Size(size) => Some(WriteStatus::PersistedSize(offset(size))),
        Said::Resource(size) => resource(size, false),
        Said::Finalised(size) => resource(size, true),
    }
}

fn offset(n: u64) -> Offset {
    Offset(i64::try_from(n).unwrap_or(i64::MAX))
}

fn resource(size: u64, finalized: bool) -> Option<WriteStatus> {
    Some(WriteStatus::Resource(Resource {
        size: offset(size),
        generation: Generation(GENERATION),
        finalized,
    }))
}

pub fn stream_break(look: Look) -> Break {
    match look {
        Look::EndOfStream => Break::EndOfStream,
        Look::Error => Break::Error,
        Look::Status => status(UNAVAILABLE_CODE, Detail::Absent),
        Look::Aborted => status(ABORTED_CODE, Detail::Absent),
        Look::Rerouted => status(UNAVAILABLE_CODE, Detail::Redirect),
        Look::Redirect => status(ABORTED_CODE, Detail::Redirect),
    }
}

fn status(code: u32, detail: Detail) -> Break {
    Break::Status(Status { code, detail })
}

// The bytes that a call brings: an append's, the handle, or the value of the detail that comes behind so many redirects.
pub fn beside(call: Call, data: &[u8], redirects: u64) -> &[u8] {
    match call {
        Call::Append => data,
        Call::Response(_) | Call::Handshake(_) => &HANDLE,
        _ if redirects % 2 == 0 => &DETAIL,
        _ => &DETAIL_IN_PARTS,
    }
}
