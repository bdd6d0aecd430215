// Fields that a release may lack: src/common_entity.rs of dwg-rs; section 20.4.1 of the specification. A field that is lacking is not read,
// and `absent`, or None, stands for it; and codes whose numbers are those of a record's fields.
// specs/ has what a field that may lack reads, by bitcursor's `held` and `marked`, and that an RC is eight raw bits.
#![tactic(auto)]

ghost use Rattle.std.specs.Prelude.{◌≡◌, ◌≤◌};
ghost use Rattle.bitcursor.specs.Code.{raw};
ghost use Rattle.bitcursor.specs.Codes.{BL, RL};
ghost use Rattle.bitcursor.specs.Answers.{outcome};
ghost use Rattle.bitcursor.specs.Held.{held};
ghost use Rattle.sequence.specs.Present.{Reads, read_if, marked_if};

use bitcursor::{Payload, Reading, within};

// A field, if the release has it, by whatever reads it: where that reads as `f`, this reads as `read_if` of `f`. It stands in a row of fields many
// times, and the compiler would leave it a call that hands its answer over by memory: so it is marked, and `held_bits` too.
// That the reader is always callable is a clause, since no bound says it of a closure's type.
#[tactic(auto, unfolding(crate::specs::Present::read_if))]
#[inline(always)]
pub fn held<T: Copy, F: Fn(&Payload, usize) -> Reading<T> + Copy>(
    s: &Payload,
    at: usize,
    has: bool,
    absent: T,
    read: F,
) -> Reading<T>
    requires { F.IsAlwaysCallable read }
    ensures { (f : Reads T) → ((r : _) → F.post read s.entry at r → outcome r ≡ f s.now at) → outcome result ≡ read_if has f absent s.now at }
{
    if !has {
        return Ok((absent, at));
    }
    read(s, at)
}

// The same where the answer says whether the field was there.
#[tactic(auto, unfolding(crate::specs::Present::marked_if))]
pub fn marked<T: Copy, F: Fn(&Payload, usize) -> Reading<T> + Copy>(
    s: &Payload,
    at: usize,
    has: bool,
    read: F,
) -> Reading<Option<T>>
    requires { F.IsAlwaysCallable read }
    ensures { (f : Reads T) → ((r : _) → F.post read s.entry at r → outcome r ≡ f s.now at) → outcome result ≡ marked_if has f s.now at }
{
    if !has {
        return Ok((None, at));
    }
    let (value, p) = read(s, at)?;
    Ok((Some(value), p))
}

// n bits (BB, RC), if the release has them; else 0. By `held`, over a reader of n bits, the compiler would leave that reader a call: of a prefix of 39 bits
// that makes 618 instructions in place of 485.
#[tactic(auto, using(bitcursor::proofs::Steps::reading), unfolding(bitcursor::specs::Held::held))]
#[inline(always)]
pub fn held_bits(s: &Payload, at: usize, n: usize, has: bool) -> Reading<u8>
    requires { (1 ≤ n) × (n ≤ 8) }
    ensures { outcome result ≡ (held has (raw n) 0).read s.now at }
{
    if !has {
        return Ok((0, at));
    }
    let (v, p) = within::read_bits(s, at, n)?;
    Ok((v as u8, p))
}

// BL, as the 32 bits that it is.
#[tactic(auto, using(bitcursor::proofs::Steps::reading, bitcursor::proofs::Smalls::smalls))]
pub fn read_long(s: &Payload, at: usize) -> Reading<u32>
    ensures { outcome result ≡ BL.read s.now at }
{
    let (v, p) = within::read_bl_u(s, at)?;
    Ok((v as u32, p))
}

// RL, as the 32 bits that it is.
#[tactic(auto, using(bitcursor::proofs::Steps::reading), unfolding(bitcursor::specs::Codes::RL))]
pub fn read_raw_long(s: &Payload, at: usize) -> Reading<u32>
    ensures { outcome result ≡ RL.read s.now at }
{
    let (v, p) = within::read_low(s, at, 4)?;
    Ok((v as u32, p))
}
