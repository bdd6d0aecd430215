// A coordinate minus an origin, and the tests behind refusals 12 and 13: document 02's L1, which dwg-rs does not have and the specification does not
// speak of. specs/Rational.antt has the exact value of a double. specs/Difference.antt promises that a difference is exact, or near, of the exact
// values; specs/Limits.antt and specs/Upright.antt say what the two tests tell of them. A coordinate is a double, or its 64 bits (doubles.rt, bits.rt).
#![tactic(auto)]

ghost use Rattle.std.specs.Prelude.{◌≡◌, ◌&&◌, Bool, true, ℕ, Float};
ghost use Rattle.differences.specs.Difference.{difference};
ghost use Rattle.differences.specs.Limits.{is_within};
ghost use Rattle.differences.specs.Upright.{is_upright};

pub mod bits;
pub mod doubles;

// Whether all of several tests hold, gathered by one instruction a test, and with no branch: so the compiler makes one of several.
pub trait Judgement: Copy {
    ghost holds: { Self → Bool };

    // Of no test.
    fn of_none() -> Self
        ensures { holds result ≡ true };

    fn and(self, other: Self) -> Self
        ensures { holds result ≡ holds self && holds other };

    fn holds(self) -> bool
        ensures { result ≡ holds self };
}

// A double, in the form that a list has it.
pub trait Coordinate: Copy {
    type Judged: Judgement;

    // the double, and its 64 bits
    ghost value: { Self → Float };

    ghost pattern: { Self → ℕ };

    // the difference to an origin, by one rounding; whether this may be subtracted, or subtracted from
    ghost minus: { Self → Self → Self };

    ghost can_minus: { Self → Bool };

    // whether this is a number within ±2^40
    ghost within: { Self → Bool };

    fn double(self) -> f64
        ensures { result ≡ value self };

    fn minus(self, o: Self) -> Self
        requires { (can_minus self ≡ true) × (can_minus o ≡ true) }
        ensures { result ≡ minus self o };

    fn within(self) -> Self::Judged
        ensures { Self.Judged.holds result ≡ within self };

    ghost minus_value: { (x o : Self) → value (minus x o) ≡ difference (value x) (value o) };

    ghost within_value: { (x : Self) → within x ≡ is_within (value x) };

    ghost within_can_minus: { (x : Self) → within x ≡ true → can_minus x ≡ true };
}

// Whether (x, y, z) is (0, 0, 1), where -0.0 counts as 0.
#[tactic(auto, unfolding(crate::specs::Upright::is_upright))]
pub fn is_upright<C: Coordinate>(x: C, y: C, z: C) -> bool
    ensures { result ≡ is_upright (C.value x) (C.value y) (C.value z) }
{
    x.double() == 0.0 && y.double() == 0.0 && z.double() == 1.0
}
