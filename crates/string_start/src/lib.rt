// Where a string reader starts: `seek` of src/string_stream.rs of dwg-rs; section 19.1 of the ODA's specification.
// One test against the payload's length and one assignment: a function is given that length, in bits or in bytes, and no byte of the payload.
// specs/ promises the start itself from within the payload, its length in bits included, and refusal 1 at the payload's end past it.
#![tactic(auto)]

ghost use Rattle.std.specs.Prelude.{◌≡◌, ◌*◌, ◌≤◌};
ghost use Rattle.loads.specs.Bits.{limit};
ghost use Rattle.bitcursor.specs.Answers.{passing};
ghost use Rattle.string_start.specs.Start.{start_in};

use bitcursor::{Passing, Refusal, refuse};

// The place of a reader that starts at a bit of a payload of so many bits. Any length may be asked for, one that is no whole number of bytes too.
#[tactic(auto, using(crate::specs::Start::inside, crate::specs::Start::past))]
pub fn start_in(bits: usize, start: usize) -> Passing
    ensures { passing result ≡ start_in bits start }
{
    if bits < start {
        return refuse(Refusal::TooFewBits, bits);
    }
    Ok(start)
}

// The same of a payload of so many bytes, by which the calls go: the length is what a payload's bytes have, and its bits are counted here alone.
#[tactic(auto, using(crate::specs::Start::inside, crate::specs::Start::past))]
pub fn start_in_bytes(bytes: usize, start: usize) -> Passing
    requires { bytes ≤ limit }
    ensures { passing result ≡ start_in (8 * bytes) start }
{
    let end = 8 * bytes;
    if end < start {
        return refuse(Refusal::TooFewBits, end);
    }
    Ok(start)
}

// No call goes by `start_in`, so no proof asks that it still takes bits if its clause and its body change together. The answers here are document 01's
// rule, worked out by hand.
#[cfg(test)]
mod tests {
    use super::*;

    #[test]
    fn lengths_in_bits(rt: HostRuntime) {
        assert_eq!(rt; start_in(0, 0), Ok(0));
        assert_eq!(rt; start_in(1, 1), Ok(1));
        assert_eq!(rt; start_in(1, 2), refuse(Refusal::TooFewBits, 1));
        assert_eq!(rt; start_in(13, 13), Ok(13));
        assert_eq!(rt; start_in(13, 14), refuse(Refusal::TooFewBits, 13));
        assert_eq!(rt; start_in(usize::MAX, usize::MAX), Ok(usize::MAX));
        assert_eq!(rt; start_in(0, usize::MAX), refuse(Refusal::TooFewBits, 0));
    }

    #[test]
    fn lengths_in_bytes(rt: HostRuntime) {
        assert_eq!(rt; start_in_bytes(0, 0), Ok(0));
        assert_eq!(rt; start_in_bytes(1, 2), Ok(2));
        assert_eq!(rt; start_in_bytes(1, 8), Ok(8));
        assert_eq!(rt; start_in_bytes(1, 9), refuse(Refusal::TooFewBits, 8));
    }
}
