// Writes requests whatever, also ones that no session makes, and prints a line for each: `E14`, or how many bytes it has and these in hexadecimal.
// A record on standard input, its numbers little-endian:
//    0 i64 write_offset
//    8 u8  flags: 1 flush, 2 state_lookup, 4 finish_write, 8 data present, 16 object checksum present
//    9 u32 the data's CRC32C, ignored without data
//   13 u32 the object's CRC32C, ignored where it is not present
//   17 u16 the data's length as the request says, ignored without data
//   19 u16 how many bytes of data are lent, at most 16,384; byte i is i mod 251
//   21 u16 the buffer's length, at most 32,768
// A record that is cut, or that has another flag, ends the run.
#![tactic(auto)]

use bench_records::{u16_at, u32_at, u64_at};
use bidi_write::{ChecksummedData, Offset, Request, i64_of, refusal_number};
use wire::write;

const STDIN_FILENO: i32 = 0;

const STDOUT_FILENO: i32 = 1;

const RECORD: usize = 23;

const LENT: usize = 16384;

const BUFFER: usize = 32768;

fn main() {
    let mut data = [0u8; LENT];
    fill(&mut data);
    let mut buffer = [0u8; BUFFER];
    run(&data, &mut buffer);
}

fn fill(data: &mut [u8]) {
    for (i, b) in data.iter_mut().enumerate() {
        *b = (i % 251) as u8;
    }
}

fn run(data: &[u8], buffer: &mut [u8]) {
    for _ in 0..u64::MAX {
        if !turn(data, buffer) {
            break;
        }
    }
}

// Says whether there was a record.
fn turn(data: &[u8], buffer: &mut [u8]) -> bool {
    let mut r = [0u8; RECORD];
    let got = io::read_full(STDIN_FILENO, &mut r);
    if got < RECORD || r[8] >= 32 {
        return false;
    }
    let lent = data.len().min(u16_at(&r, 19) as usize);
    let room = buffer.len().min(u16_at(&r, 21) as usize);
    line(request(&r), &data[..lent], &mut buffer[..room]);
    true
}

fn line(request: Request, data: &[u8], buffer: &mut [u8]) {
    match write(request, data, buffer) {
        Err(x) => {
            io::write_all(STDOUT_FILENO, b"E");
            io::print_decimal(STDOUT_FILENO, refusal_number(x));
        }
        Ok(n) => {
            io::print_decimal(STDOUT_FILENO, n as u64);
            io::write_all(STDOUT_FILENO, b" ");
            print_bytes(&buffer[..n]);
        }
    }
    io::write_all(STDOUT_FILENO, b"\n");
}

fn print_bytes(s: &[u8]) {
    for &b in s {
        io::print_hex(STDOUT_FILENO, b as u64, 2);
    }
}

// ---- the record's request

fn request(r: &[u8; RECORD]) -> Request {
    let flags = r[8];
    Request {
        write_offset: Offset(i64_of(u64_at(r, 0))),
        data: (flags & 8 != 0).then_some(ChecksummedData {
            length: u16_at(r, 17) as usize,
            crc32c: u32_at(r, 9),
        }),
        object_checksums: (flags & 16 != 0).then_some(u32_at(r, 13)),
        state_lookup: flags & 2 != 0,
        flush: flags & 1 != 0,
        finish_write: flags & 4 != 0,
    }
}
