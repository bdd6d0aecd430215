// Counts: refused with 3 above the cap, and above the bits left after them, as the Rust's `bounds_check` has it.
ghost use Rattle.std.specs.Prelude.{◌≡◌, ◌-◌};
ghost use Rattle.bitcursor.specs.Answers.{outcome};
ghost use Rattle.loads.specs.Bits.{size};
ghost use Rattle.bitcursor.specs.Codes.{BL, BS};
ghost use Rattle.hatch_format.specs.Counts.{bounded};
ghost use Rattle.hatch_points.specs.Heads.{bounds_of};

use bitcursor::{Payload, Reading, Refusal, refuse};

// The bits after a place, 0 past the end.
fn remaining_bits(s: &Payload, p: usize) -> usize
    ensures { result ≡ size s.now - p }
{
    s.size().saturating_sub(p)
}

fn bounds_check(s: &Payload, n: u64, p: usize, cap: usize) -> Reading<u64>
    ensures { outcome result ≡ bounds_of s.now cap n p }
{
    if (cap as u64) < n {
        return refuse(Refusal::CountTooLarge, p);
    }
    if (remaining_bits(s, p) as u64) < n {
        return refuse(Refusal::CountTooLarge, p);
    }
    Ok((n, p))
}

// A count that is a BL. One function that takes the code's reader would be no plainer: this and the next would still be here, to call it, each as
// long as it is.
#[tactic(auto, using(bitcursor::proofs::Steps::reading, crate::specs::Heads::bounds_bounded))]
pub fn read_count(s: &Payload, at: usize, cap: usize) -> Reading<u64>
    ensures { outcome result ≡ (bounded cap BL).read s.now at }
{
    let (n, p) = bitcursor::within::read_bl_u(s, at)?;
    bounds_check(s, n, p, cap)
}

// A count that is a BS.
#[tactic(auto, using(bitcursor::proofs::Steps::reading, crate::specs::Heads::bounds_bounded))]
pub fn read_short_count(s: &Payload, at: usize, cap: usize) -> Reading<u64>
    ensures { outcome result ≡ (bounded cap BS).read s.now at }
{
    let (n, p) = bitcursor::within::read_bs_u(s, at)?;
    bounds_check(s, n, p, cap)
}
