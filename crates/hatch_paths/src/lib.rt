// The boundary paths of a hatch, with their edges: src/entities/hatch.rs of dwg-rs; section 20.4.75 of the specification, boundary paths.
// A path is its flags, a polyline or edges, and the count of its boundary handles; walks over it measure and fill, as those of hatch_points.
// Why payload, place and lengths used are no struct, stands above `Lent` in hatch_points/src/lists.rt.
// specs/ promises that each walk gathers for the lists what the path, edge or spline that hatch_format reads there holds.
#![tactic(auto)]

ghost use Rattle.hatch_format.specs.Caps.{document_caps, NowhereAbove};

use hatch_format::Caps;
use text::version::Version;

pub mod edges;
pub mod paths;

// What holds of every path of a hatch: the greatest counts, nowhere above document 01's, and its release.
#[derive(Clone, Copy)]
pub struct Rules {
    pub caps: Caps,
    pub version: Version,
    pub ghost in_document: { NowhereAbove caps document_caps },
}
