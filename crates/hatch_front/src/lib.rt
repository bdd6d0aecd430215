// The fields of a hatch body up to its pattern's name: decode_gradient and the fields behind it in src/entities/hatch.rs of dwg-rs.
// Section 20.4.75 of the specification.
// specs/ promise that the front is read as hatch_format's `hatch` reads it, and that its colours stand where it says, so that they can be read again.
#![tactic(auto)]

ghost use Rattle.std.specs.Prelude.{◌≡◌, ◌≤◌};
ghost use Rattle.bitcursor.specs.Answers.{outcome, value_as};
ghost use Rattle.hatch_format.specs.Hatch.{plane};
ghost use Rattle.hatch_front.specs.Fronts.{front};
ghost use Rattle.hatch_front.specs.Answers.{plane_as, FrontIs};

use bitcursor::{Payload, Places, Reading, within};
use hatch_format::Caps;
use text::version::Version;
use text::{Payloads, Text};

pub mod colors;
mod gradients;

// A gradient without its colours, which stand from `colors_at` on.
#[derive(Clone, Copy, Debug, PartialEq, Eq)]
pub struct Gradient {
    pub angle: u64,
    pub shift: u64,
    pub is_single_color: u32,
    pub tint: u64,
    pub num_colors: usize,
    pub colors_at: usize,
    pub name: Text,
}

#[derive(Clone, Copy, Debug, PartialEq, Eq)]
pub struct Plane {
    pub elevation: u64,
    pub x: u64,
    pub y: u64,
    pub z: u64,
}

#[derive(Clone, Copy, Debug, PartialEq, Eq)]
pub struct Front {
    pub gradient: Option<Gradient>,
    pub plane: Plane,
    pub name: Text,
}

// The elevation and the extrusion.
#[tactic(auto, using(bitcursor::proofs::FormatSteps::fields), unfolding(hatch_format::specs::Hatch::plane, hatch_format::specs::Hatch::plane_read))]
fn read_plane(s: &Payload, at: usize) -> Reading<Plane>
    ensures { outcome result ≡ value_as plane_as (plane.read s.now at) }
{
    let (elevation, p) = within::read_bd_bits(s, at)?;
    let (x, p) = within::read_bd_bits(s, p)?;
    let (y, p) = within::read_bd_bits(s, p)?;
    let (z, p) = within::read_bd_bits(s, p)?;
    Ok((Plane { elevation, x, y, z }, p))
}

// A body up to its pattern's name.
// Release and caps, and no Rules: of the caps it asks for the colours' alone, and Rules would ask of all.
#[tactic(auto, using(bitcursor::proofs::FormatSteps::fields, crate::proofs::Handed::front_is), unfolding(crate::specs::Passed::front_passed))]
pub fn read_front(payloads: &Payloads, at: Places, v: Version, caps: Caps) -> Reading<Front, Places>
    requires { caps.colors ≤ 16 }
    ensures { FrontIs payloads.now.main ((front caps v).read payloads.now at) result }
{
    let (gradient, p) = gradients::decode_gradient(payloads, at, v, caps.colors)?;
    let (plane, q) = p.after_main(read_plane(&payloads.main, p.main))?;
    let (name, r) = text::within::read_tv_field(payloads, q, v)?;
    let front = Front {
        gradient,
        plane,
        name,
    };
    Ok((front, r))
}
