// A ring over the first `size` elements of a lent slice.
//
// A range of the ring is at most two straight runs: it is split once, where it meets the ring's end.
#![tactic(auto)]

ghost use Rattle.std.specs.Prelude.{◌≡◌, [], ◌∷◌, ◌++◌, ◌+◌, ◌≤◌, min, length, take, drop, get_or};
ghost use Rattle.crc32c.specs.Reg.{crc_of};
ghost use Rattle.ring.specs.Ring.{wrapped, ring, part, Within, Written};

// The index in a ring of n of the place that is `at` steps past its first, for at below 2 n. A test and a difference: no division.
pub fn wrap(at: usize, n: usize) -> usize
    ensures { result ≡ wrapped n at }
{
    if at < n { at } else { at - n }
}

// The first n bytes of src go to the ring's places at, at + 1, .., counted from head.
pub fn copy_in(store: &mut [u8], size: usize, head: usize, at: usize, src: &[u8], n: usize)
    requires within { Within (length store.old) size head at n }
    requires n_in_bounds { n ≤ length src.now }
    ensures { Written size head at src.now n store.old store.new }
{
    let from = wrap(head + at, size);
    let k = n.min(size - from);
    store[from..from + k].copy_from_slice(&src[..k]);
    store[..n - k].copy_from_slice(&src[k..n]);
}

// The n bytes at the ring's places at, at + 1, .., counted from head, go to the front of out.
pub fn copy_out(store: &[u8], size: usize, head: usize, at: usize, out: &mut [u8], n: usize)
    requires within { Within (length store.now) size head at n }
    requires n_in_bounds { n ≤ length out.old }
    ensures { out.new ≡ part size head at n store.now ++ drop n out.old }
{
    let from = wrap(head + at, size);
    let k = n.min(size - from);
    out[..k].copy_from_slice(&store[from..from + k]);
    out[k..n].copy_from_slice(&store[..n - k]);
}

// The CRC32C of the n bytes at the ring's places at, at + 1, .., counted from head.
pub fn sum_at(store: &[u8], size: usize, head: usize, at: usize, n: usize) -> u32
    requires { Within (length store.now) size head at n }
    ensures { result ≡ crc_of (part size head at n store.now) }
{
    let from = wrap(head + at, size);
    let k = n.min(size - from);
    let sum = crc32c::crc32c(&store[from..from + k]);
    if k < n {
        crc32c::update(sum, &store[..n - k])
    } else {
        sum
    }
}

// The table's word at the ring's place at, counted from first, becomes w.
pub fn put_word(table: &mut [u64], slots: usize, first: usize, at: usize, w: u64)
    requires { Within (length table.old) slots first at 1 }
    ensures { Written slots first at (w ∷ []) 1 table.old table.new }
{
    let to = wrap(first + at, slots);
    table[to] = w;
}

// The table's word at the ring's place at, counted from first.
pub fn word_at(table: &[u64], slots: usize, first: usize, at: usize) -> u64
    requires { Within (length table.now) slots first at 1 }
    ensures { result ≡ get_or (ring slots first table.now) at 0 }
{
    table[wrap(first + at, slots)]
}
