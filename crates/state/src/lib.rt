// Ported from google-cloud-storage 1.21.0, src/storage/bidi_write/state.rs, Copyright 2026 Google LLC (Apache-2.0); changed: no tasks, channels or heap.
#![tactic(auto)]

ghost use Rattle.std.specs.Prelude.{◌≡◌, false, ◌&&◌, ◌≤◌, length, take};
ghost use Rattle.std.proofs.Math.Option.{some, get_or};
ghost use Rattle.bidi_write.specs.View.{generation_of, new_generation_of, status_of, given, response_of, redirect_of};
ghost use Rattle.rules.specs.Message as M;
ghost use Rattle.rules.specs.Spec as R;
ghost use Rattle.rules.specs.Reconnect.{overlong};
ghost use Rattle.state.specs.View.{text_of, Fits, condition_of, spec_of, state_of, opened, SpecFits};

use bidi_write::{Generation, Metageneration, Redirect, Response, WriteStatus};

// The most bytes of each.
pub const MAX_BUCKET: usize = 256;

pub const MAX_OBJECT: usize = 1024;

pub const MAX_WRITE_HANDLE: usize = 1024;

pub const MAX_ROUTING_TOKEN: usize = 512;

// At most N bytes by value, the first `length` of an array: there is no heap.
#[derive(Clone, Copy)]
pub struct Text<const N: usize> {
    pub bytes: [u8; N],
    pub length: usize,
}

impl<const N: usize> Text<N> {
    fn new(text: &[u8]) -> Text<N>
        requires { length text.now ≤ N }
        ensures bytes_value { take result.length result.bytes ≡ text.now }
        ensures length_bound { result.length ≤ N }
    {
        let mut bytes = [0u8; N];
        bytes[..text.len()].copy_from_slice(text);
        Text {
            bytes,
            length: text.len(),
        }
    }

    // Bytes that stand beside a record, which says whether they are given.
    fn given(present: bool, text: &[u8]) -> Option<Text<N>>
        requires { M.over N (given present text.now) ≡ false }
        ensures result_value { text_of result ≡ given present text.now }
        ensures length_bound { Fits N result }
    {
        if present {
            return Some(Text::new(text));
        }
        None
    }
}

pub type Bucket = Text<MAX_BUCKET>;

pub type Object = Text<MAX_OBJECT>;

// Opaque.
pub type WriteHandle = Text<MAX_WRITE_HANDLE>;

pub type RoutingToken = Text<MAX_ROUTING_TOKEN>;

#[derive(Clone, Copy)]
pub struct AppendObjectSpec {
    pub bucket: Bucket,
    pub object: Object,
    pub generation: Generation,
    pub write_handle: Option<WriteHandle>,
    pub routing_token: Option<RoutingToken>,
    pub if_metageneration_match: Option<Metageneration>,
    pub if_metageneration_not_match: Option<Metageneration>,
}

// The generation that a response states, else the old one.
fn resource_generation(status: Option<WriteStatus>, old: Generation) -> Generation
    ensures { generation_of result ≡ get_or (M.generation_of (status_of status)) (generation_of old) }
{
    match status {
        None => old,
        Some(WriteStatus::PersistedSize(_)) => old,
        Some(WriteStatus::Resource(resource)) => resource.generation,
    }
}

#[tactic(auto, unfolding(crate::specs::View::spec_of))]
impl AppendObjectSpec {
    pub fn handle_response(mut self, m: Response, handle: &[u8]) -> AppendObjectSpec
        requires { M.over M.max_handle (response_of m handle.now).write_handle ≡ false }
        ensures result_value { spec_of result ≡ R.noted (response_of m handle.now) (spec_of self) }
        ensures spec_fits { SpecFits self → SpecFits result }
    {
        self.generation = resource_generation(m.write_status, self.generation);
        if m.has_write_handle {
            self.write_handle = Some(Text::new(handle));
        }
        self
    }

    pub fn handle_redirect(mut self, r: Redirect, token: &[u8], handle: &[u8]) -> AppendObjectSpec
        requires { overlong (some (redirect_of r token.now handle.now)) ≡ false }
        ensures result_value { spec_of result ≡ R.redirected (redirect_of r token.now handle.now) (spec_of self) }
        ensures spec_fits { SpecFits self → SpecFits result }
    {
        self.generation = r.generation.unwrap_or(self.generation);
        // The token is replaced, even by none; a handle stays unless the redirect has a new one.
        self.routing_token = Text::given(r.has_routing_token, token);
        if r.has_write_handle {
            self.write_handle = Some(Text::new(handle));
        }
        self
    }
}

// The Write form, which creates an object, uses bucket, object, token and conditions only.
#[derive(Clone, Copy)]
pub struct AppendObjectSpecState {
    pub append: bool,
    pub spec: AppendObjectSpec,
}

#[tactic(auto, unfolding(crate::specs::View::spec_of, crate::specs::View::state_of, rules::specs::Spec::handle_response, rules::specs::Spec::handle_redirect))]
impl AppendObjectSpecState {
    // The state that an opening dials with.
    pub fn new(
        append: bool,
        bucket: &[u8],
        object: &[u8],
        generation: Generation,
        has_write_handle: bool,
        write_handle: &[u8],
        has_routing_token: bool,
        routing_token: &[u8],
        if_metageneration_match: Option<Metageneration>,
        if_metageneration_not_match: Option<Metageneration>,
    ) -> AppendObjectSpecState
        requires bucket_len_bound { length bucket.now ≤ 256 }
        requires object_len_bound { length object.now ≤ 1024 }
        requires write_handle_value { M.over M.max_handle (given (append && has_write_handle) write_handle.now) ≡ false }
        requires routing_token_value { M.over M.max_token (given has_routing_token routing_token.now) ≡ false }
        ensures result_value { state_of result ≡ opened append bucket.now object.now (generation_of generation) (given has_write_handle write_handle.now) (given has_routing_token routing_token.now) (condition_of if_metageneration_match) (condition_of if_metageneration_not_match) }
        ensures spec_fits { SpecFits result.spec }
    {
        let spec = AppendObjectSpec {
            bucket: Text::new(bucket),
            object: Text::new(object),
            generation,
            // A Write form has none.
            write_handle: Text::given(append && has_write_handle, write_handle),
            routing_token: Text::given(has_routing_token, routing_token),
            if_metageneration_match,
            if_metageneration_not_match,
        };
        AppendObjectSpecState { append, spec }
    }

    // After a response the form is Append.
    pub fn handle_response(self, m: Response, handle: &[u8]) -> AppendObjectSpec
        requires { M.over M.max_handle (response_of m handle.now).write_handle ≡ false }
        ensures result_value { spec_of result ≡ R.handle_response (response_of m handle.now) (state_of self) }
        ensures spec_fits { SpecFits self.spec → SpecFits result }
    {
        let mut spec = self.spec;
        if self.append {
            return spec.handle_response(m, handle);
        }
        spec.generation = resource_generation(m.write_status, Generation(0));
        spec.write_handle = Text::given(m.has_write_handle, handle);
        spec
    }

    // A Write form stays one while it has no generation to append to.
    pub fn handle_redirect(self, r: Redirect, token: &[u8], handle: &[u8]) -> AppendObjectSpecState
        requires { overlong (some (redirect_of r token.now handle.now)) ≡ false }
        ensures result_value { state_of result ≡ R.handle_redirect (redirect_of r token.now handle.now) (state_of self) }
        ensures spec_fits { SpecFits self.spec → SpecFits result.spec }
    {
        let mut spec = self.spec;
        if self.append {
            return AppendObjectSpecState {
                append: true,
                spec: spec.handle_redirect(r, token, handle),
            };
        }
        spec.routing_token = Text::given(r.has_routing_token, token);
        match r.generation {
            None => AppendObjectSpecState {
                append: false,
                spec,
            },
            Some(generation) => {
                spec.generation = generation;
                spec.write_handle = Text::given(r.has_write_handle, handle);
                AppendObjectSpecState { append: true, spec }
            }
        }
    }
}
