// A payload within document 01's limit. Only `new` makes one, so the readers behind the public calls need not be told of the limit.
ghost use Rattle.std.specs.Prelude.{◌≡◌, ◌≤◌, List, ℕ, length};
ghost use Rattle.loads.specs.Bits.{limit, size, within_limit};

use std::marker::Model;

// Document 01's limit: a payload above it is refusal 10.
pub const LIMIT: usize = 268_435_456;

#[derive(Drop)]
pub struct Payload<'a> {
    bytes: &'a [u8],
}

impl<'a> Model for Payload<'a> {
    ghost Value = { List ℕ };

    ghost view = { λ s. s.bytes.now };

    ghost invariant = { λ s. length s.bytes.now ≤ limit };
}

impl<'a> Payload<'a> {
    // None above the limit.
    pub fn new(bytes: &'a [u8]) -> Option<Payload<'a>>
        ensures { result ≡ within_limit bytes.now }
    {
        if LIMIT < bytes.len() {
            return None;
        }
        Some(Payload { bytes })
    }

    // The bytes.
    #[inline(always)]
    pub fn bytes(&self) -> &'a [u8]
        ensures all { result.now ≡ self.now }
        ensures within { length self.now ≤ limit }
    {
        self.bytes
    }

    // How many bits there are.
    #[inline(always)]
    pub fn size(&self) -> usize
        ensures all { result ≡ size self.now }
        ensures within { length self.now ≤ limit }
    {
        8 * self.bytes.len()
    }
}
