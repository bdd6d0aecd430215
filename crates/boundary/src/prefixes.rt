// A prefix as numbers: what crosses the boundary in place of a Result, of enums, of numbers that may be absent, and of a list.
ghost use Rattle.std.specs.Prelude.{◌≡◌};
ghost use Rattle.bitcursor.specs.Answers.{outcome};
ghost use Rattle.boundary.specs.PrefixBoundary.{field_numbers, bits_answer, double_answer};

use crate::{PrefixAnswer, PrefixBitsAnswer, PrefixFields};
use bitcursor::Reading;
use prefix_format::CommonEntityData;

// All but the linetype scale.
impl<N: Copy> From<CommonEntityData<N>> for PrefixFields {
    ghost from_gives = { λ prefix fields. fields ≡ field_numbers prefix };

    fn from(prefix: CommonEntityData<N>) -> PrefixFields {
        let styles = prefix.visual_style_flags;
        PrefixFields {
            raw_mode: prefix.raw_mode,
            mode: u8::from(prefix.mode),
            num_reactors: prefix.num_reactors,
            no_xdictionary: prefix.no_xdictionary,
            binary_chain: prefix.binary_chain,
            is_on_layer: prefix.is_on_layer,
            non_fixed_ltype: prefix.non_fixed_ltype,
            plotstyle_flag: prefix.plotstyle_flag,
            material_flag: prefix.material_flag,
            shadow_flags: prefix.shadow_flags,
            invisibility: prefix.invisibility,
            nolinks: prefix.nolinks,
            color_raw: prefix.color_raw,
            has_color_rgb: prefix.color_rgb.is_some(),
            color_rgb: prefix.color_rgb.unwrap_or(0),
            has_color_alpha: prefix.color_alpha.is_some(),
            color_alpha: prefix.color_alpha.unwrap_or(0),
            ltype_flags: prefix.ltype_flags,
            full_visual_style: styles[0],
            face_visual_style: styles[1],
            edge_visual_style: styles[2],
            lineweight: prefix.lineweight,
            had_graphics: prefix.had_graphics,
            had_extended_data: prefix.had_extended_data,
            has_data_end_bits: prefix.data_end_bits.is_some(),
            data_end_bits: prefix.data_end_bits.unwrap_or(0),
        }
    }
}

// Here and below the same twice, since the structs that cross to C are two, and C has no type arguments.
impl From<Reading<CommonEntityData<u64>>> for PrefixBitsAnswer {
    ghost from_gives = { λ read answer. answer ≡ bits_answer (outcome read) };

    fn from(read: Reading<CommonEntityData<u64>>) -> PrefixBitsAnswer {
        match read {
            Ok((prefix, place)) => PrefixBitsAnswer {
                refusal: 0,
                place,
                ltype_scale: prefix.ltype_scale,
                fields: prefix.into(),
            },
            Err(e) => PrefixBitsAnswer {
                refusal: u64::from(u8::from(e.refusal)),
                place: e.place,
                ..PrefixBitsAnswer::default()
            },
        }
    }
}

impl From<Reading<CommonEntityData<f64>>> for PrefixAnswer {
    ghost from_gives = { λ read answer. answer ≡ double_answer (outcome read) };

    fn from(read: Reading<CommonEntityData<f64>>) -> PrefixAnswer {
        match read {
            Ok((prefix, place)) => PrefixAnswer {
                refusal: 0,
                place,
                ltype_scale: prefix.ltype_scale,
                fields: prefix.into(),
            },
            Err(e) => PrefixAnswer {
                refusal: u64::from(u8::from(e.refusal)),
                place: e.place,
                ..PrefixAnswer::default()
            },
        }
    }
}
