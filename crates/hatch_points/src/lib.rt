// The lent lists, counts, runs of doubles and points: src/entities/hatch.rs of dwg-rs; section 20.4.75 of the specification.
// One set of walks measures and fills: a list takes what it has room for, and the lengths used are counted whether it has or not.
// Why payload, place and lengths used are no struct, stands above `Lent` in src/lists.rt.
// specs/ promises of each walk its answer, place and lengths used, and every entry of the lists, as hatch_format defines them; what a refused walk keeps.
#![tactic(auto)]

pub mod counts;
pub mod lists;
pub mod runs;
pub mod turns;
pub mod vertices;
