// Numbers as values: a double of its 64 bits and back, signed numbers of their 16 or 32 bits.
ghost use Rattle.std.specs.Prelude.{◌≡◌, ℕ, ◌^◌, ◌<◌};
ghost use Rattle.std.specs.Float.Ieee.{of_bits, to_bits};
ghost use Rattle.std.specs.Float.{binary64};
ghost use Rattle.bitcursor.specs.Codes.{signed};

// The double of 64 bits: that very double, and the NaN where they are a NaN's.
pub fn double_of(bits: u64) -> f64
    ensures { result ≡ of_bits binary64 bits }
{
    // twice the bits without the sign's, above twice an infinity's
    if bits << 1 > 0xffe0_0000_0000_0000 {
        return 0.0 / 0.0;
    }
    f64::from_bits(bits)
}

// The 64 bits of a double; of the NaN 7ff8000000000000.
pub fn bits_of(x: f64) -> u64
    ensures { result ≡ to_bits binary64 x }
{
    if x != x {
        return 0x7ff8_0000_0000_0000;
    }
    f64::to_bits(x)
}

// What a caller has a double as: the double, or its 64 bits.
pub trait Number: Copy {
    ghost of_bits: { ℕ → Self };

    ghost bits_of: { Self → ℕ };

    fn from_bits(bits: u64) -> Self
        ensures { result ≡ of_bits bits };

    fn to_bits(self) -> u64
        ensures { result ≡ bits_of self };
}

impl Number for f64 {
    ghost of_bits = { of_bits binary64 };

    ghost bits_of = { to_bits binary64 };

    fn from_bits(bits: u64) -> f64 {
        double_of(bits)
    }

    fn to_bits(self) -> u64 {
        bits_of(self)
    }
}

impl Number for u64 {
    ghost of_bits = { λ bits. bits };

    ghost bits_of = { λ bits. bits };

    fn from_bits(bits: u64) -> u64 {
        bits
    }

    fn to_bits(self) -> u64 {
        self
    }
}

// The signed number of 16 bits. One for each width: `cast_signed` is a method of each type, so one function for both would be a trait with these two
// as its members.
pub fn short_of(v: u64) -> i16
    requires { v < 2 ^ 16 }
    ensures { result ≡ signed 16 v }
{
    (v as u16).cast_signed()
}

// The signed number of 32 bits.
pub fn long_of(v: u64) -> i32
    requires { v < 2 ^ 32 }
    ensures { result ≡ signed 32 v }
{
    (v as u32).cast_signed()
}
