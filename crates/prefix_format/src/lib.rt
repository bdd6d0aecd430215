// The entity prefix, defined: src/common_entity.rs of dwg-rs; section 20.4.1 of the specification. The functions that read it are in crate common_entity.
// Which release has which field is one table (`rows`); the readers and their definition both look there, and nowhere else.
// specs/ has its layouts, the record, a whole call, and when a call has a layout; proofs/Format proves the layouts, and proofs/Demand3 the third demand of a
// call.
#![tactic(auto)]

ghost use Rattle.std.specs.Prelude.{◌≡◌};
ghost use Rattle.prefix_format.specs.Modes.{mode_of, mode_number};

pub mod table;

// The entity's mode, from its two bits.
#[derive(Clone, Copy, Debug, PartialEq, Eq)]
pub enum EntityMode {
    ByLayer,
    ByPreviousEntity,
    InBlock,
    Reserved,
}

impl From<u8> for EntityMode {
    ghost from_gives = { λ bits mode. mode ≡ mode_of bits };

    fn from(bits: u8) -> EntityMode {
        match bits {
            0 => EntityMode::ByLayer,
            1 => EntityMode::ByPreviousEntity,
            2 => EntityMode::InBlock,
            _ => EntityMode::Reserved,
        }
    }
}

impl From<EntityMode> for u8 {
    ghost from_gives = { λ mode bits. bits ≡ mode_number mode };

    fn from(mode: EntityMode) -> u8 {
        match mode {
            EntityMode::ByLayer => 0,
            EntityMode::ByPreviousEntity => 1,
            EntityMode::InBlock => 2,
            EntityMode::Reserved => 3,
        }
    }
}

// All that a prefix holds, with the names of the Rust; the linetype scale is a double, or its 64 bits.
#[derive(Clone, Copy, Debug, PartialEq)]
pub struct CommonEntityData<N> {
    pub raw_mode: u8,
    pub mode: EntityMode,
    pub num_reactors: u32,
    pub no_xdictionary: bool,
    pub binary_chain: bool,
    pub is_on_layer: bool,
    pub non_fixed_ltype: bool,
    pub plotstyle_flag: u8,
    pub material_flag: u8,
    pub shadow_flags: u8,
    pub invisibility: i16,
    pub nolinks: bool,
    pub color_raw: u16,
    pub color_rgb: Option<u32>,
    pub color_alpha: Option<u32>,
    pub ltype_scale: N,
    pub ltype_flags: u8,
    pub visual_style_flags: [bool; 3],
    pub lineweight: u8,
    pub had_graphics: bool,
    pub had_extended_data: bool,
    pub data_end_bits: Option<u32>,
}
