// The hatch body, defined: src/entities/hatch.rs of dwg-rs; section 20.4.75 of the specification. The functions that read it are in crate hatch.
// specs/ has its values, its layouts, the format that reads them, and the record and the list entries that a call hands over;
// specs/Call defines a whole call, specs/Demand3 what the third demand says of it, and proofs/Demand3 proves each of its sentences.
#![tactic(auto)]

ghost use Rattle.std.specs.Prelude.{◌≡◌, ⊤};
ghost use Rattle.hatch_format.specs.Caps.{document_caps};
ghost use Rattle.hatch_format.specs.Record.{color_as_doubles};

use bitcursor::{Places, values};
use std::alloc::AllocError;
use text::Text;

// The greatest count that is read of each list. A boundary handle count is one per path.
#[derive(Clone, Copy, Debug, PartialEq, Eq)]
pub struct Caps {
    pub colors: usize,
    pub paths: usize,
    pub vertices: usize,
    pub edges: usize,
    pub knots: usize,
    pub control_points: usize,
    pub fit_points: usize,
    pub boundary_handles: usize,
    pub pattern_lines: usize,
    pub dashes: usize,
    pub seed_points: usize,
}

// Document 01's caps.
pub fn document_caps() -> Caps
    ensures { result ≡ document_caps }
{
    Caps {
        colors: 16,
        paths: 10_000,
        vertices: 100_000,
        edges: 100_000,
        knots: 100_000,
        control_points: 100_000,
        fit_points: 100_000,
        boundary_handles: 1_024,
        pattern_lines: 4_096,
        dashes: 64,
        seed_points: 1_024,
    }
}

// A gradient's colour with its double as f64, as C lays it out, since the C boundary hands it over as it is.
#[repr(C)]
#[derive(Clone, Copy, Debug, PartialEq)]
pub struct GradientColor {
    pub unknown_double: f64,
    pub unknown_short: i16,
    pub rgb: u32,
    pub ignored_color_byte: u8,
}

// The same with the double as its 64 bits: a struct of its own, since what crosses to C may have no type arguments.
#[repr(C)]
#[derive(Clone, Copy, Debug, PartialEq, Eq)]
pub struct GradientColorBits {
    pub unknown_double: u64,
    pub unknown_short: i16,
    pub rgb: u32,
    pub ignored_color_byte: u8,
}

// What a caller has a colour as.
pub trait Color: Copy {
    ghost use Rattle.hatch_format.specs.declared.GradientColorBits.{GradientColorBits};

    ghost of_bits: { GradientColorBits → Self };

    fn from_bits(color: GradientColorBits) -> Self
        ensures { result ≡ of_bits color };
}

impl Color for GradientColor {
    ghost of_bits = { color_as_doubles };

    fn from_bits(color: GradientColorBits) -> GradientColor {
        GradientColor {
            unknown_double: values::double_of(color.unknown_double),
            unknown_short: color.unknown_short,
            rgb: color.rgb,
            ignored_color_byte: color.ignored_color_byte,
        }
    }
}

impl Color for GradientColorBits {
    ghost of_bits = { λ color. color };

    fn from_bits(color: GradientColorBits) -> GradientColorBits {
        color
    }
}

// The gradient of a hatch; colours past their count are zero. `present` is a field, and not an Option around the others, since document 01
// has the record zero throughout where there is no gradient; the colours are sixteen and how many, since a record is of fixed memory. Fields of an open
// type come last, here and in Hatch: where the types are open, each field behind one doubles the term that says how large the struct is, and the proofs of
// generic calls meet the check's limit.
#[derive(Copy)]
pub struct GradientFill<N = f64, C = GradientColor> {
    pub present: bool,
    pub is_single_color: u32,
    pub num_colors: usize,
    pub name: Text,
    pub angle: N,
    pub shift: N,
    pub tint: N,
    pub colors: [C; 16],
}

// A copy of the whole: a derived `clone` would go colour by colour, and its proof meets the check's limit.
impl<N: Copy, C: Copy> Clone for GradientFill<N, C> {
    ghost is_clone = { λ x y. y ≡ x };

    ghost is_infallible = { λ _. ⊤ };

    fn clone(&self) -> Result<Self, AllocError> {
        Ok(*self)
    }
}

#[derive(Clone, Copy, Debug, PartialEq, Eq)]
pub struct Vec3D<N = f64> {
    pub x: N,
    pub y: N,
    pub z: N,
}

// What a hatch call hands over by value: document 01's record. The rest goes to the two lent lists, so far as their lengths used say.
#[derive(Copy)]
pub struct Hatch<N = f64, C = GradientColor> {
    pub pattern_name: Text,
    pub solid_fill: bool,
    pub associative: bool,
    pub num_paths: usize,
    pub pattern_style: u16,
    pub pattern_type: u16,
    pub pattern_double: bool,
    pub num_pattern_lines: usize,
    pub num_seed_points: usize,
    pub words_used: usize,
    pub numbers_used: usize,
    pub places: Places,
    pub elevation: N,
    pub pattern_angle: N,
    pub pattern_scale: N,
    pub pixel_size: N,
    pub extrusion: Vec3D<N>,
    pub gradient: GradientFill<N, C>,
}

// As that of a gradient.
impl<N: Copy, C: Copy> Clone for Hatch<N, C> {
    ghost is_clone = { λ x y. y ≡ x };

    ghost is_infallible = { λ _. ⊤ };

    fn clone(&self) -> Result<Self, AllocError> {
        Ok(*self)
    }
}

// The same with each double as its 64 bits.
pub type GradientFillBits = GradientFill<u64, GradientColorBits>;

pub type Vec3DBits = Vec3D<u64>;

pub type HatchBits = Hatch<u64, GradientColorBits>;
