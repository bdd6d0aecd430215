// A hatch's points relative to an origin, defined: no file of the Rust, which has no such call; document 02, L1.
// The functions that judge and move the numbers of a list are in crates point_runs and move_origin.
// specs/ have the order of refusals and every entry afterwards; they prove that a moved hatch is whole, and proofs/ how near each difference is.
#![tactic(auto)]

ghost use Rattle.std.specs.Prelude.{◌≡◌};
ghost use Rattle.moved_hatch.specs.Moving.{move_refusal_number};

use std::error::Error;
use std::fmt;

// Why points are not moved: record and lists are not whole, the extrusion is not (0, 0, 1), or the origin or a coordinate is beyond ±2^40.
#[derive(Clone, Copy, Debug, PartialEq, Eq)]
pub enum MoveRefusal {
    ListsNotWhole,
    OtherPlane,
    CoordinateOutOfRange,
}

// The numbers of document 02's table.
impl From<MoveRefusal> for u8 {
    ghost from_gives = { λ refusal number. number ≡ move_refusal_number refusal };

    fn from(refusal: MoveRefusal) -> u8 {
        match refusal {
            MoveRefusal::ListsNotWhole => 11,
            MoveRefusal::OtherPlane => 12,
            MoveRefusal::CoordinateOutOfRange => 13,
        }
    }
}

impl fmt::Display for MoveRefusal {
    fn fmt<W: fmt::Write>(&self, f: &mut fmt::Formatter<W>) -> fmt::Result {
        match self {
            MoveRefusal::ListsNotWhole => write!(f, "record and lists are not whole"),
            MoveRefusal::OtherPlane => write!(f, "the extrusion is not (0, 0, 1)"),
            MoveRefusal::CoordinateOutOfRange => write!(
                f,
                "the origin or a coordinate is beyond 2^40"
            ),
        }
    }
}

impl Error for MoveRefusal {}
