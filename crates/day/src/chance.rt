// What is left to chance, drawn from the seed: the same key and place give the same number.

// The key of the next turn.
pub fn next(key: u64) -> u64 {
    key.wrapping_add(0x9E37_79B9_7F4A_7C15)
}

// A number below n; 0 where n is 0.
pub fn draw(key: u64, place: u64, n: u64) -> u64 {
    if n == 0 {
        return 0;
    }
    mix(key.wrapping_add(place)) % n
}

pub fn one_in(key: u64, place: u64, n: u64) -> bool {
    draw(key, place, n) == 0
}

// From 0 to n, either of them in a quarter of the cases. Takes two places.
pub fn part(key: u64, place: u64, n: u64) -> u64 {
    match draw(key, place, 4) {
        0 => 0,
        1 => n,
        _ => draw(key, place.wrapping_add(1), n.wrapping_add(1)),
    }
}

// n in most cases. Takes three places.
pub fn part_or_all(key: u64, place: u64, n: u64) -> u64 {
    if one_in(key, place, 4) {
        return part(key, place.wrapping_add(1), n);
    }
    n
}

// MurmurHash3's finaliser: every bit of x below bit 48 moves every bit of the result.
fn mix(x: u64) -> u64 {
    let a = x ^ (x >> 16);
    let b = (a % 4294967296) * 0x85EB_CA6B;
    let c = b ^ (b >> 13);
    let d = (c % 4294967296) * 0xC2B2_AE35;
    (d ^ (d >> 16)) % 4294967296
}
