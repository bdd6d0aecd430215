// A coordinate as a double.
ghost use Rattle.std.specs.Prelude.{true, refl, ◌&&◌};
ghost use Rattle.std.specs.Float.{binary64};
ghost use Rattle.std.specs.Float.Ieee.{to_bits};
ghost use Rattle.differences.specs.Difference.{difference};
ghost use Rattle.differences.specs.Limits.{is_within};

use crate::{Coordinate, Judgement};

impl Judgement for bool {
    ghost holds = { λ b. b };

    fn of_none() -> bool {
        true
    }

    // `&` and not `&&`: both are there, whatever the first is.
    fn and(self, other: bool) -> bool {
        self & other
    }

    fn holds(self) -> bool {
        self
    }
}

impl Coordinate for f64 {
    type Judged = bool;

    ghost value = { λ x. x };

    ghost pattern = { to_bits binary64 };

    ghost minus = { difference };

    ghost can_minus = { λ x. true };

    ghost within = { is_within };

    fn double(self) -> f64 {
        self
    }

    fn minus(self, o: f64) -> f64 {
        self - o
    }

    #[tactic(auto, unfolding(crate::specs::Limits::is_within))]
    fn within(self) -> bool {
        self <= 1099511627776.0 && self >= -1099511627776.0
    }

    ghost minus_value = { λ x o. refl };

    ghost within_value = { λ x. refl };

    ghost within_can_minus = { λ x h. refl };
}
