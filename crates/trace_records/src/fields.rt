// The fields of a record. Each is taken off the front of what is left of the input; there is none where the input ends before, or where a byte is none of
// the field's values. What is left is then no more than it was, and no use: a record is read whole or not at all.
ghost use Rattle.std.specs.Prelude.{ℕ, ◌+◌, ◌≤◌, List, [], ◌++◌, length, Option, IfSome, None, Some};

pub trait Field<'a> {
    // As many bytes as the answer holds, at least: with what is left they are no more than the input had. A field that says nothing has to show only that the
    // input gets no longer, since `[] ++ x` is x.
    ghost held: { Option Self → List ℕ } = { λ _. [] };

    fn take(input: &mut &'a [u8]) -> Option<Self>
        ensures { length (held result ++ input.new.now) ≤ length input.old.now };
}

pub fn take<'a, T: Field<'a>>(input: &mut &'a [u8]) -> Option<T>
    ensures no_more { length input.new.now ≤ length input.old.now }
    ensures holds { IfSome result (λ v. length (T.held (Some v)) + length input.new.now ≤ length input.old.now) }
{
    T::take(input)
}

impl<'a, const N: usize> Field<'a> for [u8; N] {
    ghost held = { elim [ None ↦ [] | Some a ↦ a ] };

    fn take(input: &mut &'a [u8]) -> Option<[u8; N]> {
        let (bytes, rest) = input.split_first_chunk()?;
        *input = rest;
        Some(*bytes)
    }
}

impl<'a> Field<'a> for u8 {
    fn take(input: &mut &'a [u8]) -> Option<u8> {
        input.split_off_first().copied()
    }
}

impl<'a> Field<'a> for u16 {
    fn take(input: &mut &'a [u8]) -> Option<u16> {
        take(input).map(u16::from_le_bytes)
    }
}

impl<'a> Field<'a> for u32 {
    fn take(input: &mut &'a [u8]) -> Option<u32> {
        take(input).map(u32::from_le_bytes)
    }
}

impl<'a> Field<'a> for i64 {
    fn take(input: &mut &'a [u8]) -> Option<i64> {
        take(input).map(i64::from_le_bytes)
    }
}

impl<'a> Field<'a> for bool {
    fn take(input: &mut &'a [u8]) -> Option<bool> {
        match take::<u8>(input)? {
            0 => Some(false),
            1 => Some(true),
            _ => None,
        }
    }
}

// A length and the bytes.
impl<'a> Field<'a> for &'a [u8] {
    ghost held = { elim [ None ↦ [] | Some s ↦ s.now ] };

    fn take(input: &mut &'a [u8]) -> Option<&'a [u8]> {
        let length = take::<u16>(input)?;
        input.split_off(..length as usize)
    }
}

// What may be absent: 0, or 1 and the field.
impl<'a, T: Field<'a>> Field<'a> for Option<T> {
    ghost held = { elim [ None ↦ [] | Some None ↦ [] | Some (Some v) ↦ T.held (Some v) ] };

    fn take(input: &mut &'a [u8]) -> Option<Option<T>> {
        if take(input)? {
            take(input).map(Some)
        } else {
            Some(None)
        }
    }
}

#[cfg(test)]
mod tests {
    use super::*;

    // One that says nothing of what it holds, as another crate may write it, has nothing to prove but that the input gets no longer.
    #[derive(Drop)]
    struct Passed;

    impl<'a> Field<'a> for Passed {
        fn take(input: &mut &'a [u8]) -> Option<Passed>
            ensures { length input.new.now ≤ length input.old.now }
        {
            take::<&'a [u8]>(input)?;
            Some(Passed)
        }
    }

    #[test]
    fn takes_a_field_that_says_nothing(rt: HostRuntime) {
        let mut input: &[u8] = &[2, 0, 7, 8, 9];
        assert!(rt; take::<Passed>(&mut input).is_some());
        assert_eq!(rt; input, [9].as_slice());
        assert!(rt; take::<Passed>(&mut input).is_none());
    }
}
