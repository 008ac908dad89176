// What WB prints: a request's bytes.
use bidi_write::{Request, refusal_number};
use trace_text::{hexes, number_field, text};

const BUFFER: usize = 16384;

// Writes the request into a buffer of `length` bytes, with the first `data` bytes of `room` lent, of each no more than is there.
pub fn write(
    out: &mut [u8],
    n: usize,
    r: Option<Request>,
    room: &[u8],
    data: usize,
    length: usize,
) -> usize {
    let Some(request) = r else {
        return text(out, n, b"WB -\n");
    };
    let mut buffer = [0u8; BUFFER];
    let data = &room[..data.min(room.len())];
    let buffer = &mut buffer[..length.min(BUFFER)];
    match wire::write(request, data, buffer) {
        Err(x) => {
            let n = number_field(out, n, b"WB E", refusal_number(x));
            text(out, n, b"\n")
        }
        Ok(k) => {
            let n = number_field(out, n, b"WB ", k as u64);
            let n = text(out, n, b"\n  wb ");
            let n = hexes(out, n, &buffer[..k]);
            text(out, n, b"\n")
        }
    }
}
