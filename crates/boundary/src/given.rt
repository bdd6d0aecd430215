// A hatch's record as a caller gives it: as an answer has it, with each switch as a byte, since any byte may stand there.
// C has no type arguments and no Option: so there is a struct for doubles and one for their bits, and `present`.
ghost use Rattle.std.specs.Prelude.{◌≡◌};
ghost use Rattle.boundary.specs.MoveBoundary.{given_counts};

use hatch_format::{GradientColor, GradientColorBits};
use hatch_lists::HatchCounts;

#[repr(C)]
#[derive(Clone, Copy)]
pub struct TextGiven {
    pub source: u8,
    pub width: u8,
    pub padded: u8,
    pub position: usize,
    pub count: usize,
}

#[repr(C)]
#[derive(Clone, Copy)]
pub struct GradientGiven {
    pub present: u8,
    pub angle: f64,
    pub shift: f64,
    pub is_single_color: u32,
    pub tint: f64,
    pub num_colors: usize,
    pub colors: [GradientColor; 16],
    pub name: TextGiven,
}

#[repr(C)]
#[derive(Clone, Copy)]
pub struct GradientBitsGiven {
    pub present: u8,
    pub angle: u64,
    pub shift: u64,
    pub is_single_color: u32,
    pub tint: u64,
    pub num_colors: usize,
    pub colors: [GradientColorBits; 16],
    pub name: TextGiven,
}

#[repr(C)]
#[derive(Clone, Copy)]
pub struct FieldsGiven {
    pub pattern_name: TextGiven,
    pub solid_fill: u8,
    pub associative: u8,
    pub pattern_double: u8,
    pub pattern_style: u16,
    pub pattern_type: u16,
    pub num_paths: usize,
    pub num_pattern_lines: usize,
    pub num_seed_points: usize,
    pub words_used: usize,
    pub numbers_used: usize,
}

#[repr(C)]
#[derive(Clone, Copy)]
pub struct BodyGiven {
    pub refusal: u64,
    pub place: usize,
    pub string_place: usize,
    pub gradient: GradientGiven,
    pub elevation: f64,
    pub extrusion_x: f64,
    pub extrusion_y: f64,
    pub extrusion_z: f64,
    pub pattern_angle: f64,
    pub pattern_scale: f64,
    pub pixel_size: f64,
    pub fields: FieldsGiven,
}

#[repr(C)]
#[derive(Clone, Copy)]
pub struct BodyBitsGiven {
    pub refusal: u64,
    pub place: usize,
    pub string_place: usize,
    pub gradient: GradientBitsGiven,
    pub elevation: u64,
    pub extrusion_x: u64,
    pub extrusion_y: u64,
    pub extrusion_z: u64,
    pub pattern_angle: u64,
    pub pattern_scale: u64,
    pub pixel_size: u64,
    pub fields: FieldsGiven,
}

// What a record says of its lists. No From, since it takes the parts that both C structs have: a From of each would be two impls that say the same.
pub fn counts_of(fields: FieldsGiven, num_colors: usize) -> HatchCounts
    ensures { result ≡ given_counts fields num_colors }
{
    HatchCounts {
        solid_fill: fields.solid_fill,
        associative: fields.associative,
        pattern_double: fields.pattern_double,
        num_colors,
        num_paths: fields.num_paths,
        num_pattern_lines: fields.num_pattern_lines,
        num_seed_points: fields.num_seed_points,
        words_used: fields.words_used,
        numbers_used: fields.numbers_used,
    }
}
