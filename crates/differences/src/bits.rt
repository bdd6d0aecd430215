// A coordinate as the 64 bits of its double.
ghost use Rattle.std.specs.Prelude.{refl};
ghost use Rattle.std.specs.Float.{binary64};
ghost use Rattle.std.specs.Float.Ieee.{of_bits};
ghost use Rattle.differences.specs.Difference.{difference_bits, difference_of_bits};
ghost use Rattle.differences.specs.Limits.{is_within_bits, below};

use crate::{Coordinate, Judgement};
use bitcursor::values;

// Tests of patterns: the top bit of 64 is set where one fails, which `|` of many keeps.
#[derive(Clone, Copy, Debug, PartialEq, Eq)]
pub struct TopBit(u64);

impl Judgement for TopBit {
    ghost holds = { λ t. below t.0 };

    fn of_none() -> TopBit {
        TopBit(0)
    }

    #[tactic(auto, using(crate::proofs::Patterns::gathered))]
    fn and(self, other: TopBit) -> TopBit {
        TopBit(self.0 | other.0)
    }

    fn holds(self) -> bool {
        self.0 < 0x8000_0000_0000_0000
    }
}

impl Coordinate for u64 {
    type Judged = TopBit;

    ghost value = { of_bits binary64 };

    ghost pattern = { λ n. n };

    ghost minus = { difference_bits };

    ghost can_minus = { is_within_bits };

    ghost within = { is_within_bits };

    fn double(self) -> f64 {
        values::double_of(self)
    }

    // Of numbers in range neither pattern is a NaN's, and nor is their difference's: no test looks for one.
    fn minus(self, o: u64) -> u64 {
        f64::to_bits(f64::from_bits(self) - f64::from_bits(o))
    }

    // Below 2^63 exactly where this is a number within ±2^40: without the sign's bit a pattern grows with the size of its double, and a NaN's is above
    // all others; the sum brings those above 2^40's to the top bit.
    #[tactic(auto, using(crate::proofs::Patterns::top_bit_tells))]
    fn within(self) -> TopBit {
        TopBit(self % 0x8000_0000_0000_0000 + 0x3d8f_ffff_ffff_ffff)
    }

    ghost minus_value = { difference_of_bits };

    ghost within_value = { λ x. refl };

    ghost within_can_minus = { λ x h. h };
}
