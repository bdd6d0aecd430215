// The parts of a prefix, each with the place after it: src/common_entity.rs of dwg-rs (`read_common_entity_data`, `read_entity_mode_onwards`);
// section 20.4.1 of the specification.
// specs/ has what each part is, by prefix_format's definitions of its fields, and that the five in a row read what prefix_format's definition reads.
#![tactic(auto)]

ghost use Rattle.std.specs.Prelude.{◌≡◌, ◌<◌};
ghost use Rattle.bitcursor.specs.Answers.{outcome};
ghost use Rattle.prefix_format.specs.Values.{flag};
ghost use Rattle.prefix_parts.specs.Parts.{head, modes, colours, styles, tail, present_fields};

use bitcursor::{Payload, Reading, within};
use prefix_format::table::Row;
use sequence::{held, held_bits, marked, read_long, read_raw_long};

// Up to the mode: XDATA, graphics and, in release 1, the data end.
#[derive(Clone, Copy, Debug, PartialEq, Eq)]
pub struct Head {
    pub had_extended_data: bool,
    pub had_graphics: bool,
    pub data_end_bits: Option<u32>,
}

// From the mode to the colour.
#[derive(Clone, Copy, Debug, PartialEq, Eq)]
pub struct Modes {
    pub raw_mode: u8,
    pub num_reactors: u32,
    pub no_xdictionary: bool,
    pub binary_chain: bool,
    pub by_layer_ltype: bool,
    pub nolinks: bool,
}

// The colour, and the fields behind it that the record keeps.
#[derive(Clone, Copy, Debug, PartialEq, Eq)]
pub struct Colours {
    pub color_raw: u16,
    pub color_rgb: Option<u32>,
    pub color_alpha: Option<u32>,
}

// Which of the fields behind a colour are present.
#[derive(Clone, Copy, Debug, Default, PartialEq, Eq)]
pub struct PresentFields {
    pub rgb: bool,
    pub alpha: bool,
    pub name: bool,
    pub book_name: bool,
}

// The linetype scale, as its 64 bits, and the flags behind it.
#[derive(Clone, Copy, Debug, PartialEq, Eq)]
pub struct Styles {
    pub ltype_scale: u64,
    pub ltype_flags: u8,
    pub plotstyle_flag: u8,
    pub material_flag: u8,
    pub shadow_flags: u8,
}

// From the visual styles to the end.
#[derive(Clone, Copy, Debug, PartialEq, Eq)]
pub struct Tail {
    pub visual_style_flags: [bool; 3],
    pub invisibility: i16,
    pub lineweight: u8,
}

// The five are put into their one caller, so that no part is handed over by memory. A struct of the payload and the row, which all five take, would be made
// once, in that caller, and every field here would name them through it (`self.row.nolinks`): longer, and no argument less at a field.
#[tactic(auto, using(crate::proofs::Fields::fields), unfolding(crate::specs::Parts::head))]
#[inline(always)]
pub fn read_head(s: &Payload, at: usize, row: Row) -> Reading<Head>
    ensures { outcome result ≡ (head row).read s.now at }
{
    let (had_extended_data, p) = prefix_fields::skip_extended_data(s, at)?;
    let (had_graphics, q) = prefix_fields::skip_graphics(s, p, row.graphics_bll)?;
    let (data_end_bits, end) = marked(s, q, row.data_end, read_raw_long)?;
    let head = Head {
        had_extended_data,
        had_graphics,
        data_end_bits,
    };
    Ok((head, end))
}

#[tactic(auto, using(crate::proofs::Fields::fields), unfolding(crate::specs::Parts::modes, bitcursor::specs::Codes::BB))]
#[inline(always)]
pub fn read_modes(s: &Payload, at: usize, row: Row) -> Reading<Modes>
    ensures { outcome result ≡ (modes row).read s.now at }
{
    let (mode, p) = within::read_bits(s, at, 2)?;
    let (num_reactors, p) = read_long(s, p)?;
    let (no_xdictionary, p) = held(s, p, row.no_xdictionary, true, within::read_flag)?;
    let (binary_chain, p) = held(s, p, row.binary_chain, false, within::read_flag)?;
    let (by_layer_ltype, p) = held(s, p, row.by_layer_ltype, true, within::read_flag)?;
    let (nolinks, p) = held(s, p, row.nolinks, true, within::read_flag)?;
    let modes = Modes {
        raw_mode: mode as u8,
        num_reactors,
        no_xdictionary,
        binary_chain,
        by_layer_ltype,
        nolinks,
    };
    Ok((modes, p))
}

// A bit of the colour's short.
fn flag(colour: u64, k: u64) -> bool
    requires { k < 64 }
    ensures { result ≡ flag k colour }
{
    (colour >> k) % 2 == 1
}

// Which of the colour's fields follow: rgb if 80 is set and 40 clear, alpha if 20 is set, names if 41 or 42 are all set.
fn present_fields(row: Row, colour: u64) -> PresentFields
    ensures { result ≡ present_fields row colour }
{
    if !row.color_flags {
        return PresentFields::default();
    }
    let book = flag(colour, 14);
    PresentFields {
        rgb: flag(colour, 15) & !book,
        alpha: flag(colour, 13),
        name: book & flag(colour, 8),
        book_name: book & flag(colour, 9),
    }
}

#[tactic(auto, using(crate::proofs::Fields::fields), unfolding(crate::specs::Parts::colours))]
#[inline(always)]
pub fn read_colours(s: &Payload, at: usize, row: Row) -> Reading<Colours>
    ensures { outcome result ≡ (colours row).read s.now at }
{
    let (colour, p) = within::read_bs_u(s, at)?;
    if colour < 0x2000 {
        // none of 80, 40 and 20 is set, so nothing follows
        let plain = Colours {
            color_raw: colour as u16,
            color_rgb: None,
            color_alpha: None,
        };
        return Ok((plain, p));
    }
    let has = present_fields(row, colour);
    let (color_rgb, p) = marked(s, p, has.rgb, read_long)?;
    let (color_alpha, p) = marked(s, p, has.alpha, read_long)?;
    let skip_name = |s: &Payload, at: usize| prefix_fields::skip_name(s, at, row.wide_names);
    let (_, p) = held(s, p, has.name, (), skip_name)?;
    let (_, p) = held(s, p, has.book_name, (), skip_name)?;
    let colours = Colours {
        color_raw: colour as u16,
        color_rgb,
        color_alpha,
    };
    Ok((colours, p))
}

// An RC is read as eight bits (here and below): that is one comparison less than a byte's reader has.
#[tactic(auto, using(crate::proofs::Fields::fields), unfolding(crate::specs::Parts::styles, bitcursor::specs::Codes::BB))]
#[inline(always)]
pub fn read_styles(s: &Payload, at: usize, row: Row) -> Reading<Styles>
    ensures { outcome result ≡ (styles row).read s.now at }
{
    let (ltype_scale, p) = within::read_bd_bits(s, at)?;
    let (ltype_flags, p) = held_bits(s, p, 2, row.ltype_and_plotstyle)?;
    let (plotstyle_flag, p) = held_bits(s, p, 2, row.ltype_and_plotstyle)?;
    let (material_flag, p) = held_bits(s, p, 2, row.material_and_shadow)?;
    let (shadow_flags, p) = held_bits(s, p, 8, row.material_and_shadow)?;
    let styles = Styles {
        ltype_scale,
        ltype_flags,
        plotstyle_flag,
        material_flag,
        shadow_flags,
    };
    Ok((styles, p))
}

#[tactic(auto, using(crate::proofs::Fields::fields), unfolding(crate::specs::Parts::tail, bitcursor::specs::Codes::signed_BS))]
#[inline(always)]
pub fn read_tail(s: &Payload, at: usize, row: Row) -> Reading<Tail>
    ensures { outcome result ≡ (tail row).read s.now at }
{
    let (full, p) = held(s, at, row.visual_styles, false, within::read_flag)?;
    let (face, p) = held(s, p, row.visual_styles, false, within::read_flag)?;
    let (edge, p) = held(s, p, row.visual_styles, false, within::read_flag)?;
    let (invisible, p) = within::read_bs_u(s, p)?;
    let (lineweight, p) = held_bits(s, p, 8, row.lineweight)?;
    let tail = Tail {
        visual_style_flags: [full, face, edge],
        invisibility: bitcursor::values::short_of(invisible),
        lineweight,
    };
    Ok((tail, p))
}
