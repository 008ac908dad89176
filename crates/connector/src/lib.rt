// Ported from google-cloud-storage 1.21.0, src/storage/bidi_write/connector.rs, Copyright 2026 Google LLC (Apache-2.0); changed: no tasks, channels or heap.
#![tactic(auto)]

ghost use Rattle.std.specs.Prelude.{◌≡◌, false, ◌<◌, ◌-◌, ◌^◌, length};
ghost use Rattle.std.proofs.Math.Option.{some};
ghost use Rattle.bidi_write.specs.View.{given, response_of, size_of};
ghost use Rattle.rules.specs.Message as M;
ghost use Rattle.rules.specs.Respond.{updated, progress};
ghost use Rattle.rules.specs.Reconnect.{overlong, rerouted, attempted, counted};
ghost use Rattle.rules.specs.Spec.{redirected};
ghost use Rattle.rules.specs.Opening.{good_bucket};
ghost use Rattle.redirect.specs.Detail.{redirect_at, Within};
ghost use Rattle.redirect_reader.specs.Places.{PartFits, SeenFits, part_in, part_bytes, seen_in};
ghost use Rattle.state.specs.View.{spec_of, SpecFits};
ghost use Rattle.connector.specs.View.{connector_of};

use bidi_write::{Offset, Response};
use protobuf_fields::Part;
use redirect::{Reading, redirect_of};
use redirect_reader::Seen;
use state::{AppendObjectSpec, MAX_BUCKET, MAX_ROUTING_TOKEN, MAX_WRITE_HANDLE};

// What a bucket's name starts with.
pub const BUCKET_PREFIX: [u8; 19] = *b"projects/_/buckets/";

#[derive(Clone, Copy)]
pub struct Connector {
    pub spec: AppendObjectSpec,
    pub attempt_count: u32,
    pub redirects_followed: u32,
    pub last_persisted_size: Offset,
}

#[tactic(auto, unfolding(crate::specs::View::connector_of))]
impl Connector {
    // Takes over a response's generation and handle.
    pub fn handle_response(mut self, m: Response, handle: &[u8]) -> Connector
        requires { M.over M.max_handle (response_of m handle.now).write_handle ≡ false }
        ensures result_value { connector_of result ≡ updated (response_of m handle.now) (connector_of self) }
        ensures spec_fits { SpecFits self.spec → SpecFits result.spec }
    {
        self.spec = self.spec.handle_response(m, handle);
        self
    }

    // A size above the last one replaces it and starts both counts anew.
    pub fn progress(mut self, size: Option<Offset>) -> Connector
        ensures result_value { connector_of result ≡ progress (size_of size) (connector_of self) }
        ensures spec_fits { SpecFits self.spec → SpecFits result.spec }
    {
        if let Some(n) = size {
            if bidi_write::below(self.last_persisted_size, n) {
                self.attempt_count = 0;
                self.redirects_followed = 0;
                self.last_persisted_size = n;
            }
        }
        self
    }

    // A status with redirect detail is taken over for any code.
    pub fn handle_redirect(self, d: Reading, value: &[u8]) -> Connector
        requires { Within d (length value.now) × (overlong (redirect_at d value.now) ≡ false) }
        ensures result_value { connector_of result ≡ rerouted (redirect_at d value.now) (connector_of self) }
        ensures spec_fits { SpecFits self.spec → SpecFits result.spec }
    {
        match d {
            Ok(None) => self,
            Err(_) => self,
            Ok(Some(m)) => Connector {
                spec: reroute(self.spec, m, value),
                ..self
            },
        }
    }

    // A break that is no redirect is an attempt.
    pub fn count_attempt(mut self, redirect: bool) -> Connector
        ensures result_value { connector_of result ≡ attempted redirect (connector_of self) }
        ensures spec_fits { SpecFits self.spec → SpecFits result.spec }
    {
        if !redirect {
            self.attempt_count = self.attempt_count.saturating_add(1);
        }
        self
    }

    // A redirect counts, whatever the verdict on it.
    pub fn count_redirect(mut self, redirect: bool) -> Connector
        ensures result_value { self.redirects_followed < 2 ^ 32 - 1 → connector_of result ≡ counted redirect (connector_of self) }
        ensures spec_fits { SpecFits self.spec → SpecFits result.spec }
    {
        if redirect {
            self.redirects_followed = self.redirects_followed.saturating_add(1);
        }
        self
    }

    // What a break of a live stream changes; dialling is the host's.
    pub fn reconnect(self, d: Reading, value: &[u8], redirect: bool, persisted: Offset) -> Connector
        requires { Within d (length value.now) × (overlong (redirect_at d value.now) ≡ false) }
        ensures result_value { connector_of result ≡ attempted redirect (progress (some persisted.0) (rerouted (redirect_at d value.now) (connector_of self))) }
        ensures spec_fits { SpecFits self.spec → SpecFits result.spec }
    {
        self.handle_redirect(d, value)
            .progress(Some(persisted))
            .count_attempt(redirect)
    }
}

// Takes over what a redirect says, its token and handle from where they lie in the value.
fn reroute(spec: AppendObjectSpec, m: Seen, value: &[u8]) -> AppendObjectSpec
    requires { SeenFits m (length value.now) × (overlong (some (seen_in value.now m)) ≡ false) }
    ensures result_value { spec_of result ≡ redirected (seen_in value.now m) (spec_of spec) }
    ensures spec_fits { SpecFits spec → SpecFits result }
{
    spec.handle_redirect(
        redirect_of(m),
        bytes_of(value, m.token),
        bytes_of(value, m.handle),
    )
}

// The bytes of a part of the value, if there is one.
fn bytes_of<'a>(value: &'a [u8], p: Option<Part>) -> &'a [u8]
    requires { PartFits p (length value.now) }
    ensures { result.now ≡ part_bytes value.now p }
{
    match p {
        Some(p) => p.of(value),
        None => &[],
    }
}

// Whether a redirect's token or handle is too long to keep.
pub fn too_long(d: Reading) -> bool
    ensures { (value : M.Bytes) → Within d (length value) → result ≡ overlong (redirect_at d value) }
{
    match d {
        Ok(None) => false,
        Err(_) => false,
        Ok(Some(m)) => part_over(m.token, MAX_ROUTING_TOKEN)
            || part_over(m.handle, MAX_WRITE_HANDLE),
    }
}

// Whether a part of a value is given, and has more bytes than the most.
fn part_over(p: Option<Part>, most: usize) -> bool
    ensures { (value : M.Bytes) → PartFits p (length value) → result ≡ M.over most (part_in value p) }
{
    match p {
        Some(p) => most < p.len,
        None => false,
    }
}

// Whether a response's handle is too long to keep.
pub fn handle_too_long(m: Response, handle: &[u8]) -> bool
    ensures { result ≡ M.over M.max_handle (response_of m handle.now).write_handle }
{
    over(m.has_write_handle, handle, MAX_WRITE_HANDLE)
}

// Whether bytes are given, and more than the most.
pub fn over(present: bool, bytes: &[u8], most: usize) -> bool
    ensures { result ≡ M.over most (given present bytes.now) }
{
    present && most < bytes.len()
}

// Whether a bucket's name is whole: the prefix and 1 or more bytes, at most 256 in all.
#[tactic(auto, using(crate::proofs::Prefix::prefix_is), unfolding(rules::specs::Opening::good_bucket))]
pub fn is_bucket(b: &[u8]) -> bool
    ensures { result ≡ good_bucket b.now }
{
    b.starts_with(&BUCKET_PREFIX) && BUCKET_PREFIX.len() < b.len() && b.len() <= MAX_BUCKET
}
