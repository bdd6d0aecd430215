// A hatch's points moved to an origin of the job: no file of the Rust, which has no such call; document 02, L1.
// All tests come before the first store: one walk over the items judges the coordinates, and only then another moves them.
// Contracts are equations with crate moved_hatch: the outcome with refusals 11, 12 and 13 in that order, and every entry of the list afterwards.
#![tactic(auto)]

ghost use Rattle.std.specs.Prelude.{◌≡◌, ◌&&◌, length};
ghost use Rattle.hatch_lists.specs.Items.{points_item};
ghost use Rattle.differences.specs.Upright.{is_upright};
ghost use Rattle.moved_hatch.specs.Moving.{moved, all_in_range, arithmetic, outcome, MovesOrigin};
ghost use Rattle.moved_hatch.specs.Parts.{Movable};
ghost use Rattle.move_origin.specs.Walked.{Walks, roles_of, may_move};

use differences::{Coordinate, Judgement};
use hatch_format::Vec3D;
use hatch_lists::{HatchCounts, Item};
use moved_hatch::MoveRefusal;
use whole_lists::{ListWalk, Place};

// The seed points, as an item.
pub fn seeds_item(seeds: usize) -> Item
    ensures { result ≡ points_item seeds }
{
    Item {
        before: 0,
        points: seeds,
        stride: 2,
        fit_points: 0,
        behind: 0,
    }
}

// Whether each coordinate of whole lists, of which these are the words used, is in range: item by item, and then of the seed points. The next item is
// known from the last one's place, and the seed points begin where the walk ends: an iterator of items would hold the same place, and be asked for it.
fn are_within<C: Coordinate>(c: HatchCounts, words: &[u32], numbers: &[C]) -> bool
    requires { Walks c words.now (length numbers.now) }
    ensures { result ≡ all_in_range C.within (roles_of c words.now) numbers.now }
{
    let mut at = Place::start(c);
    while !at.is_finished() {
        let walk = ListWalk {
            words,
            numbers: c.numbers_used,
            at,
        };
        let Some((i, to)) = walk.next_item() else {
            return false;
        };
        if !point_runs::item_within(numbers, at.number, i) {
            return false;
        }
        at = to;
    }
    point_runs::item_within(numbers, at.number, seeds_item(c.num_seed_points))
}

// Each of them less the origin's. Not one loop with a closure for both: what a step needs of the walk so far differs (in range, or moved and still movable),
// so the loop's law would have both as parameters.
fn move_all<C: Coordinate>(c: HatchCounts, words: &[u32], numbers: &mut [C], x: C, y: C)
    requires { Walks c words.now (length numbers.old) × Movable C.can_minus x y 0 (roles_of c words.now) numbers.old }
    ensures { numbers.new ≡ moved C.minus x y (roles_of c words.now) numbers.old }
{
    let mut at = Place::start(c);
    while !at.is_finished() {
        let walk = ListWalk {
            words,
            numbers: c.numbers_used,
            at,
        };
        let Some((i, to)) = walk.next_item() else {
            return;
        };
        point_runs::move_item(numbers, at.number, i, x, y);
        at = to;
    }
    point_runs::move_item(numbers, at.number, seeds_item(c.num_seed_points), x, y);
}

// Whether a hatch may be moved by its plane, and then by the origin.
fn may_move<C: Coordinate>(extrusion: Vec3D<C>, x: C, y: C) -> Result<(), MoveRefusal>
    ensures { result ≡ may_move (is_upright (C.value extrusion.x) (C.value extrusion.y) (C.value extrusion.z)) (C.within x && C.within y) }
{
    if !differences::is_upright(extrusion.x, extrusion.y, extrusion.z) {
        return Err(MoveRefusal::OtherPlane);
    }
    if !x.within().and(y.within()).holds() {
        return Err(MoveRefusal::CoordinateOutOfRange);
    }
    Ok(())
}

// The points of a hatch relative to the origin (x, y), in place: its record's counts and extrusion, its words, and its numbers.
pub fn move_origin<C: Coordinate>(
    c: HatchCounts,
    extrusion: Vec3D<C>,
    words: &[u32],
    numbers: &mut [C],
    x: C,
    y: C,
) -> Result<(), MoveRefusal>
    ensures { MovesOrigin (arithmetic C.pattern C.minus C.within)
        (outcome (arithmetic C.pattern C.minus C.within) c
        (is_upright (C.value extrusion.x) (C.value extrusion.y) (C.value extrusion.z)) words.now numbers.old x y)
        x y result numbers.old numbers.new }
{
    if !whole_lists::is_whole(c, words, numbers.len()) {
        return Err(MoveRefusal::ListsNotWhole);
    }
    may_move(extrusion, x, y)?;
    let used = &words[..c.words_used];
    if !are_within(c, used, numbers) {
        return Err(MoveRefusal::CoordinateOutOfRange);
    }
    move_all(c, used, numbers, x, y);
    Ok(())
}
