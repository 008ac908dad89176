// Ported from google-cloud-storage 1.21.0, src/storage/bidi_write/coalescing_buffer.rs, Copyright 2026 Google LLC (Apache-2.0); changed: no tasks, channels or heap.
// Held bytes: those of appends that no chunk has yet. They lie in the ring over the lent store, behind the stored ones.
// The crate's `push` cuts as many chunks as it can; a call here fills one chunk at most and says how much of the data it took.
#![tactic(auto)]

ghost use Rattle.std.specs.Prelude.{◌≡◌, ◌+◌, ◌-◌, ◌≤◌, min, leb, length};
ghost use Rattle.ring.specs.Ring.{Within};
ghost use Rattle.coalescing_buffer.specs.Held.{Extends};

// How many of n bytes are taken beside those held, where a chunk has at most `limit`.
pub fn room(held: usize, limit: usize, n: usize) -> usize
    ensures { result ≡ min n (limit - held) }
{
    n.min(limit.saturating_sub(held))
}

// Whether n bytes more reach the limit of a chunk.
pub fn fills(held: usize, limit: usize, n: usize) -> bool
    ensures { result ≡ leb limit (held + n) }
{
    limit.saturating_sub(held) <= n
}

// The first n bytes of data are held behind those held before.
pub fn extend(
    store: &mut [u8],
    size: usize,
    head: usize,
    stored: usize,
    held: usize,
    data: &[u8],
    n: usize,
)
    requires within { Within (length store.old) size head (stored + held) n }
    requires n_in_bounds { n ≤ length «data».now }
    ensures { Extends size head stored held «data».now n store.old store.new }
{
    ring::copy_in(store, size, head, stored + held, data, n);
}
