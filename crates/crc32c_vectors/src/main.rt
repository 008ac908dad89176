// CRC32C's vectors, run: those of RFC 3720, B.4, the check value of "123456789" and the empty message, each whole and
// put together at every cut, and joins whose second part is up to 2^64 - 1 bytes long. A line for each, then their number.
#![tactic(auto)]

ghost use Rattle.std.specs.Prelude.{◌≡◌, ◌++◌};
ghost use Rattle.crc32c.specs.Reg.{crc_of};

const STDOUT_FILENO: i32 = 1;

// How many vectors were run, and how many of them gave another sum.
#[derive(Drop)]
struct Tally {
    run: u64,
    wrong: u64,
}

fn main() {
    let mut t = Tally { run: 0, wrong: 0 };
    rfc_vectors(&mut t);
    other_vectors(&mut t);
    joins(&mut t);
    io::print_decimal(STDOUT_FILENO, t.run);
    io::write_all(STDOUT_FILENO, b" vectors, ");
    io::print_decimal(STDOUT_FILENO, t.wrong);
    io::write_all(STDOUT_FILENO, b" wrong\n");
}

// RFC 3720, B.4.
fn rfc_vectors(t: &mut Tally) {
    let zeros = [0u8; 32];
    let ones = [255u8; 32];
    let up =
        b"\x00\x01\x02\x03\x04\x05\x06\x07\x08\x09\x0a\x0b\x0c\x0d\x0e\x0f\x10\x11\x12\x13\x14\x15\x16\x17\x18\x19\x1a\x1b\x1c\x1d\x1e\x1f";
    let down =
        b"\x1f\x1e\x1d\x1c\x1b\x1a\x19\x18\x17\x16\x15\x14\x13\x12\x11\x10\x0f\x0e\x0d\x0c\x0b\x0a\x09\x08\x07\x06\x05\x04\x03\x02\x01\x00";
    let command =
        b"\x01\xc0\x00\x00\x00\x00\x00\x00\x00\x00\x00\x00\x00\x00\x00\x00\x14\x00\x00\x00\x00\x00\x04\x00\x00\x00\x00\x14\x00\x00\x00\x18\x28\x00\x00\x00\x00\x00\x00\x00\x02\x00\x00\x00\x00\x00\x00\x00";
    vector(t, b"32 bytes of zeros", &zeros, 0x8A91_36AA);
    vector(t, b"32 bytes of ones", &ones, 0x62A8_AB43);
    vector(t, b"00 to 1f", up, 0x46DD_794E);
    vector(t, b"1f to 00", down, 0x113F_DB5C);
    vector(t, b"read command", command, 0xD996_3A56);
}

// The check value, and the sum of nothing.
fn other_vectors(t: &mut Tally) {
    vector(t, b"123456789", b"123456789", 0xE306_9283);
    vector(t, b"empty message", b"", 0);
}

// "123456789" joined with zero bytes, by their sum and number alone: the number, the sum of so many zero bytes, and that of the
// whole. The sums are those of tools/crc_joins, which divides as RFC 3720 says, with x^(8n) mod the generator by squaring
// polynomials: it has neither register nor columns.
fn joins(t: &mut Tally) {
    join(t, b"0", 0, 0, 0xE306_9283);
    join(t, b"1", 1, 0x527D_5351, 0xC338_9D4F);
    join(t, b"2^32", 1 << 32, 0xF161_77D2, 0x4DD6_4A54);
    join(t, b"2^64 - 1", u64::MAX, 0x6064_A37A, 0xC48F_C8D7);
}

fn join(t: &mut Tally, number: &[u8], n: u64, zeros: u32, sum: u32) {
    let found = crc32c::combine(0xE306_9283, zeros, n);
    io::write_all(STDOUT_FILENO, b"123456789 joined with zero bytes, ");
    report(t, number, b": ", found, sum);
}

// A message whole, and put together at every cut.
fn vector(t: &mut Tally, name: &[u8], bytes: &[u8], sum: u32) {
    report(t, name, b": ", crc32c::crc32c(bytes), sum);
    let found = at_every_cut(bytes, sum, combined);
    report(t, name, b", combined at every cut: ", found, sum);
    let found = at_every_cut(bytes, sum, updated);
    report(t, name, b", updated at every cut: ", found, sum);
}

// What was found, and whether it is the sum.
fn report(t: &mut Tally, name: &[u8], how: &[u8], found: u32, sum: u32) {
    io::write_all(STDOUT_FILENO, name);
    io::write_all(STDOUT_FILENO, how);
    io::print_hex(STDOUT_FILENO, found as u64, 8);
    // some dozens: nothing wraps
    t.run = t.run.wrapping_add(1);
    if found == sum {
        io::write_all(STDOUT_FILENO, b" ok\n");
    } else {
        io::write_all(STDOUT_FILENO, b" WRONG\n");
        t.wrong = t.wrong.wrapping_add(1);
    }
}

// The sum where every cut gives it, and else the first other that one gives.
fn at_every_cut<F: Fn(&[u8], &[u8]) -> u32 + Drop>(bytes: &[u8], sum: u32, put_together: F) -> u32
    requires { F.IsAlwaysCallable put_together }
{
    for at in 0..=bytes.len() {
        let (first, second) = bytes.split_at(at);
        let found = put_together(first, second);
        if found != sum {
            return found;
        }
    }
    sum
}

// The sum of the whole, from the sums of what is before a cut and of what is after it.
#[tactic(auto, using(crc32c::proofs::Join::crc_joined))]
fn combined(first: &[u8], second: &[u8]) -> u32
    ensures { result ≡ crc_of (first.now ++ second.now) }
{
    crc32c::combine(
        crc32c::crc32c(first),
        crc32c::crc32c(second),
        second.len() as u64,
    )
}

// The sum of what is before a cut, taken further over what is after it.
#[tactic(auto, using(crc32c::proofs::Join::crc_updated))]
fn updated(first: &[u8], second: &[u8]) -> u32
    ensures { result ≡ crc_of (first.now ++ second.now) }
{
    crc32c::update(crc32c::crc32c(first), second)
}
