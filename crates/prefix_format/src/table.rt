// Which prefix fields each release has: document 01's "fixed table of release against field".
ghost use Rattle.std.specs.Prelude.{◌≡◌};
ghost use Rattle.prefix_format.specs.Rows.{rows, row_of};

use text::version::Version;

// One release: whether it has each field that not all have. A bool too where it picks one of two codes: the table of specs/Rows is of yes and no, and an
// enum of the two codes would be asked once each, by an `if` that stands now.
#[derive(Clone, Copy, Debug, PartialEq, Eq)]
pub struct Row {
    // the graphics size is a BLL, not an RL
    pub graphics_bll: bool,
    pub data_end: bool,
    pub no_xdictionary: bool,
    pub binary_chain: bool,
    pub by_layer_ltype: bool,
    pub nolinks: bool,
    // the colour's high byte says what follows it
    pub color_flags: bool,
    // colour names have 16-bit units
    pub wide_names: bool,
    pub ltype_and_plotstyle: bool,
    pub material_and_shadow: bool,
    pub visual_styles: bool,
    pub lineweight: bool,
}

// Releases 1 to 7: R14, R2000, R2004, R2007, R2010, R2013, R2018.
const ROWS: [Row; 7] = [
    Row {
        graphics_bll: false,
        data_end: true,
        no_xdictionary: false,
        binary_chain: false,
        by_layer_ltype: true,
        nolinks: true,
        color_flags: false,
        wide_names: false,
        ltype_and_plotstyle: false,
        material_and_shadow: false,
        visual_styles: false,
        lineweight: false,
    },
    Row {
        graphics_bll: false,
        data_end: false,
        no_xdictionary: false,
        binary_chain: false,
        by_layer_ltype: false,
        nolinks: true,
        color_flags: false,
        wide_names: false,
        ltype_and_plotstyle: true,
        material_and_shadow: false,
        visual_styles: false,
        lineweight: true,
    },
    Row {
        graphics_bll: false,
        data_end: false,
        no_xdictionary: true,
        binary_chain: false,
        by_layer_ltype: false,
        nolinks: false,
        color_flags: true,
        wide_names: false,
        ltype_and_plotstyle: true,
        material_and_shadow: false,
        visual_styles: false,
        lineweight: true,
    },
    Row {
        graphics_bll: false,
        data_end: false,
        no_xdictionary: true,
        binary_chain: false,
        by_layer_ltype: false,
        nolinks: false,
        color_flags: true,
        wide_names: true,
        ltype_and_plotstyle: true,
        material_and_shadow: true,
        visual_styles: false,
        lineweight: true,
    },
    Row {
        graphics_bll: true,
        data_end: false,
        no_xdictionary: true,
        binary_chain: false,
        by_layer_ltype: false,
        nolinks: false,
        color_flags: true,
        wide_names: true,
        ltype_and_plotstyle: true,
        material_and_shadow: true,
        visual_styles: true,
        lineweight: true,
    },
    Row {
        graphics_bll: true,
        data_end: false,
        no_xdictionary: true,
        binary_chain: true,
        by_layer_ltype: false,
        nolinks: false,
        color_flags: true,
        wide_names: true,
        ltype_and_plotstyle: true,
        material_and_shadow: true,
        visual_styles: true,
        lineweight: true,
    },
    Row {
        graphics_bll: true,
        data_end: false,
        no_xdictionary: true,
        binary_chain: true,
        by_layer_ltype: false,
        nolinks: false,
        color_flags: true,
        wide_names: true,
        ltype_and_plotstyle: true,
        material_and_shadow: true,
        visual_styles: true,
        lineweight: true,
    },
];

// The whole table: what ties it to the definition's.
pub fn rows() -> [Row; 7]
    ensures { result ≡ rows }
{
    ROWS
}

pub fn row_of(v: Version) -> Row
    ensures { result ≡ row_of v }
{
    let all = rows();
    all[v.release_number() - 1]
}
