// What crosses the C boundary in place of enums: structs of numbers, and each answer of the calls as such a struct.
// No file of the Rust and no section of the public document: the fields' names are the Rust's and document 01's.
// specs/ promise that each struct has the answer's numbers: refusal 0 and the value, or the refusal's number and its place and 0.
#![tactic(auto)]

pub mod answers;
pub mod bodies;
pub mod conversions;
pub mod given;
pub mod hatches;
pub mod moves;
pub mod prefixes;

// What one code gives: the refusal's number or 0, the final place, and the value or 0.
// Here and below a struct for each type of value, a number for a refusal and a flag for what may be absent: C has no type arguments, no enum and no Option.
#[repr(C)]
#[derive(Clone, Copy)]
pub struct CodeAnswer {
    pub refusal: u64,
    pub place: usize,
    pub value: u64,
}

#[repr(C)]
#[derive(Clone, Copy)]
pub struct SignedAnswer {
    pub refusal: u64,
    pub place: usize,
    pub value: i32,
}

#[repr(C)]
#[derive(Clone, Copy)]
pub struct DoubleAnswer {
    pub refusal: u64,
    pub place: usize,
    pub value: f64,
}

#[repr(C)]
#[derive(Clone, Copy)]
pub struct HandleAnswer {
    pub refusal: u64,
    pub place: usize,
    pub code: u8,
    pub counter: u8,
    pub value: u64,
}

// What a text gives: the refusal's number or 0, the final place, and document 01's text: the payload (1 main, 2 string, 0 none),
// the bits of a unit, the bit position of the first unit and the unit count, or 0 for each; and whether a closing zero was dropped.
// That stands behind the width, where nothing stood, so that every other field stands where it did.
#[repr(C)]
#[derive(Clone, Copy)]
pub struct TextAnswer {
    pub refusal: u64,
    pub place: usize,
    pub source: u8,
    pub width: u8,
    pub padded: bool,
    pub position: usize,
    pub count: usize,
}

// The fields of a prefix but its linetype scale, under the Rust's names; a number that may be absent has its `has` beside it.
#[repr(C)]
#[derive(Clone, Copy, Default)]
pub struct PrefixFields {
    pub raw_mode: u8,
    pub mode: u8,
    pub num_reactors: u32,
    pub no_xdictionary: bool,
    pub binary_chain: bool,
    pub is_on_layer: bool,
    pub non_fixed_ltype: bool,
    pub plotstyle_flag: u8,
    pub material_flag: u8,
    pub shadow_flags: u8,
    pub invisibility: i16,
    pub nolinks: bool,
    pub color_raw: u16,
    pub has_color_rgb: bool,
    pub color_rgb: u32,
    pub has_color_alpha: bool,
    pub color_alpha: u32,
    pub ltype_flags: u8,
    pub full_visual_style: bool,
    pub face_visual_style: bool,
    pub edge_visual_style: bool,
    pub lineweight: u8,
    pub had_graphics: bool,
    pub had_extended_data: bool,
    pub has_data_end_bits: bool,
    pub data_end_bits: u32,
}

// What a prefix gives: the refusal's number or 0, the final place, and the fields or 0 for each. The mode's number is 0 by layer,
// 1 by the previous entity, 2 in a block, 3 reserved.
#[repr(C)]
#[derive(Clone, Copy, Default)]
pub struct PrefixAnswer {
    pub refusal: u64,
    pub place: usize,
    pub ltype_scale: f64,
    pub fields: PrefixFields,
}

// The same with the scale as its 64 bits: a struct of its own, since what crosses to C has no type arguments.
#[repr(C)]
#[derive(Clone, Copy, Default)]
pub struct PrefixBitsAnswer {
    pub refusal: u64,
    pub place: usize,
    pub ltype_scale: u64,
    pub fields: PrefixFields,
}
