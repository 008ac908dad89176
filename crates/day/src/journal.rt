// The journal: a byte for each offset, so that the server need not keep it.

// The byte at an offset, in the journal of this key.
pub fn byte_at(key: u64, at: u64) -> u8 {
    let x = key.wrapping_add(at) % 4294967296;
    (x * 2654435769 / 16777216 % 256) as u8
}

// How many of the bytes from an offset on are not the journal's.
pub fn wrong(bytes: &[u8], key: u64, at: u64) -> u64 {
    let places = bytes.iter().enumerate();
    let wrong = places.filter(|(i, b)| **b != byte_at(key, at.wrapping_add(*i as u64)));
    wrong.count() as u64
}

// The sum of what is before an offset, taken further over the n bytes from there on.
pub fn sum_on(sum: u32, key: u64, at: u64, n: u64) -> u32 {
    (0..n).fold(sum, |sum, i| {
        crc32c::update(sum, &[byte_at(key, at.wrapping_add(i))])
    })
}
