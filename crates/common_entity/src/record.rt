// The record of a prefix from its parts.
ghost use Rattle.std.specs.Prelude.{◌≡◌};
ghost use Rattle.prefix_format.specs.Record.{data_of};
ghost use Rattle.prefix_parts.specs.Parts.{record_of};

use bitcursor::values::Number;
use prefix_format::{CommonEntityData, EntityMode};
use prefix_parts::{Colours, Head, Modes, Styles, Tail};

pub fn record_of<N: Number>(
    head: Head,
    modes: Modes,
    colours: Colours,
    styles: Styles,
    tail: Tail,
) -> CommonEntityData<N>
    ensures { result ≡ data_of N.of_bits (record_of head modes colours styles tail) }
{
    let visual_style_flags = tail.visual_style_flags;
    CommonEntityData {
        raw_mode: modes.raw_mode,
        mode: EntityMode::from(modes.raw_mode),
        num_reactors: modes.num_reactors,
        no_xdictionary: modes.no_xdictionary,
        binary_chain: modes.binary_chain,
        is_on_layer: true,
        non_fixed_ltype: !modes.by_layer_ltype,
        plotstyle_flag: styles.plotstyle_flag,
        material_flag: styles.material_flag,
        shadow_flags: styles.shadow_flags,
        invisibility: tail.invisibility,
        nolinks: modes.nolinks,
        color_raw: colours.color_raw,
        color_rgb: colours.color_rgb,
        color_alpha: colours.color_alpha,
        ltype_scale: N::from_bits(styles.ltype_scale),
        ltype_flags: styles.ltype_flags,
        visual_style_flags,
        lineweight: tail.lineweight,
        had_graphics: head.had_graphics,
        had_extended_data: head.had_extended_data,
        data_end_bits: head.data_end_bits,
    }
}
