// What follows a hatch's front, whole: src/entities/hatch.rs of dwg-rs; section 20.4.75 of the specification, from the solid fill bit on.
// Switches, paths, style and type, the pattern with its lines, pixel size and seed points, walked as those of hatch_points: to measure or to fill.
// Why payload, place and lengths used are no struct, stands above `Lent` in hatch_points/src/lists.rt.
// specs/ promises the values, the place after them, the lengths used and every entry of the lists, as hatch_format's `rest` reads them.
#![tactic(auto)]

pub mod patterns;
pub mod rests;
