// A hatch's points moved to an origin of the job, across the boundary; thin over crate move_origin.
// specs/MoveCalls promises that each answer is the call's as numbers; the list is what the call leaves there.
ghost use Rattle.dwg_hatch.specs.MoveCalls.{MovesDoubles, MovesBits};

use boundary::given;
use boundary::given::{BodyBitsGiven, BodyGiven};
use boundary::moves::MoveAnswer;
use hatch_format::Vec3D;

// The vector is made by hand, here and below: a From of each of the two C structs would name the same three fields, and take the whole record by value.

// Each coordinate of the first numbers used, less the origin's, in place: the record as a call gave it, its words and its numbers.
#[unsafe(no_mangle)]
pub extern "C" fn dwg_hatch_move_origin(
    hatch: BodyGiven,
    words: &[u32],
    numbers: &mut [f64],
    x: f64,
    y: f64,
) -> MoveAnswer
    ensures { MovesDoubles hatch words.now x y result numbers.old numbers.new }
{
    let counts = given::counts_of(hatch.fields, hatch.gradient.num_colors);
    let extrusion = Vec3D {
        x: hatch.extrusion_x,
        y: hatch.extrusion_y,
        z: hatch.extrusion_z,
    };
    move_origin::move_origin(counts, extrusion, words, numbers, x, y).into()
}

// The same with each double as its 64 bits.
#[unsafe(no_mangle)]
pub extern "C" fn dwg_hatch_move_origin_bits(
    hatch: BodyBitsGiven,
    words: &[u32],
    bits: &mut [u64],
    x: u64,
    y: u64,
) -> MoveAnswer
    ensures { MovesBits hatch words.now x y result bits.old bits.new }
{
    let counts = given::counts_of(hatch.fields, hatch.gradient.num_colors);
    let extrusion = Vec3D {
        x: hatch.extrusion_x,
        y: hatch.extrusion_y,
        z: hatch.extrusion_z,
    };
    move_origin::move_origin(counts, extrusion, words, bits, x, y).into()
}
