// A hatch's answer, and the lengths that its lists must have, as structs of numbers.
// C has no type arguments, no enum and no Option: so there is a struct for doubles and one for their bits, a refusal's number, and `present`.
use hatch_format::{GradientColor, GradientColorBits};

// Where a text lies, as TextAnswer has it.
#[repr(C)]
#[derive(Clone, Copy)]
pub struct TextFields {
    pub source: u8,
    pub width: u8,
    pub padded: bool,
    pub position: usize,
    pub count: usize,
}

// The gradient of a hatch, or 0 for each where there is none; colours past their count are 0.
#[repr(C)]
#[derive(Clone, Copy)]
pub struct GradientFields {
    pub present: bool,
    pub angle: f64,
    pub shift: f64,
    pub is_single_color: u32,
    pub tint: f64,
    pub num_colors: usize,
    pub colors: [GradientColor; 16],
    pub name: TextFields,
}

// The same with each double as its 64 bits.
#[repr(C)]
#[derive(Clone, Copy)]
pub struct GradientBits {
    pub present: bool,
    pub angle: u64,
    pub shift: u64,
    pub is_single_color: u32,
    pub tint: u64,
    pub num_colors: usize,
    pub colors: [GradientColorBits; 16],
    pub name: TextFields,
}

// The fields of a hatch that are no doubles, under the Rust's names, the counts of what it holds, and the lengths used of both lists.
#[repr(C)]
#[derive(Clone, Copy)]
pub struct BodyFields {
    pub pattern_name: TextFields,
    pub solid_fill: bool,
    pub associative: bool,
    pub pattern_double: bool,
    pub pattern_style: u16,
    pub pattern_type: u16,
    pub num_paths: usize,
    pub num_pattern_lines: usize,
    pub num_seed_points: usize,
    pub words_used: usize,
    pub numbers_used: usize,
}

// What a hatch gives: the refusal's number or 0, the final place in each payload, and the fields or 0 for each.
#[repr(C)]
#[derive(Clone, Copy)]
pub struct BodyAnswer {
    pub refusal: u64,
    pub place: usize,
    pub string_place: usize,
    pub gradient: GradientFields,
    pub elevation: f64,
    pub extrusion_x: f64,
    pub extrusion_y: f64,
    pub extrusion_z: f64,
    pub pattern_angle: f64,
    pub pattern_scale: f64,
    pub pixel_size: f64,
    pub fields: BodyFields,
}

#[repr(C)]
#[derive(Clone, Copy)]
pub struct BodyBitsAnswer {
    pub refusal: u64,
    pub place: usize,
    pub string_place: usize,
    pub gradient: GradientBits,
    pub elevation: u64,
    pub extrusion_x: u64,
    pub extrusion_y: u64,
    pub extrusion_z: u64,
    pub pattern_angle: u64,
    pub pattern_scale: u64,
    pub pixel_size: u64,
    pub fields: BodyFields,
}

// What a measuring gives: the refusal's number or 0, the final place in each payload, and the lengths that the lists must have or 0.
#[repr(C)]
#[derive(Clone, Copy)]
pub struct LengthsAnswer {
    pub refusal: u64,
    pub place: usize,
    pub string_place: usize,
    pub words: usize,
    pub numbers: usize,
}
