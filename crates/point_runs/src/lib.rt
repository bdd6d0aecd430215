// Points in the list of numbers, judged and moved, run by run and item by item: no file of the Rust; document 02, L1 (refusal 13).
// One code for doubles and for their 64 bits: what an entry is, is a Coordinate of crate differences.
// Contracts are equations with crate moved_hatch: whether every coordinate is in range, and every entry of the list afterwards.
#![tactic(auto)]

ghost use Rattle.std.specs.Prelude.{◌≡◌, ◌+◌, ◌*◌, ◌≤◌, length};
ghost use Rattle.hatch_lists.specs.Coordinates.{point_run, item_roles};
ghost use Rattle.hatch_lists.specs.Items.{item_size};
ghost use Rattle.moved_hatch.specs.Parts.{moved_from, in_range_from, Movable};
ghost use Rattle.list_items.specs.Found.{Small};

use differences::{Coordinate, Judgement};
use hatch_lists::Item;

// How many numbers lie from each point to the next: two at least, its x and its y.
// List and index are no fields of it: the list that is moved is lent, and a run would be made anew for one point, two and four.
#[derive(Clone, Copy)]
pub struct Stride {
    pub numbers: usize,
    ghost two: { 2 ≤ numbers },
}

// Of an item's fit points.
const PAIRS: Stride = Stride { numbers: 2 };

// Whether the coordinates of the point at an index are in range. Both are looked at, whatever the first is: so the compiler tests them at once.
fn point_within<C: Coordinate>(numbers: &[C], at: usize, stride: Stride) -> C::Judged
    requires { at + stride.numbers ≤ length numbers.now }
    ensures { C.Judged.holds result ≡ in_range_from C.within at (point_run stride.numbers 1) numbers.now }
{
    numbers[at].within().and(numbers[at + 1].within())
}

// The same of two points.
fn pair_within<C: Coordinate>(numbers: &[C], at: usize, stride: Stride) -> C::Judged
    requires { at + 2 * stride.numbers ≤ length numbers.now }
    ensures { C.Judged.holds result ≡ in_range_from C.within at (point_run stride.numbers 2) numbers.now }
{
    point_within(numbers, at, stride).and(point_within(numbers, at + stride.numbers, stride))
}

// And of four. Not one loop over `point_within` for two, four and the last: over f64 the compiler then tests the third and the fourth point by jumps of
// their own, and a call on a long run took a twelfth more instructions.
fn four_within<C: Coordinate>(numbers: &[C], at: usize, stride: Stride) -> C::Judged
    requires { at + 4 * stride.numbers ≤ length numbers.now }
    ensures { C.Judged.holds result ≡ in_range_from C.within at (point_run stride.numbers 4) numbers.now }
{
    let first = pair_within(numbers, at, stride);
    let second = pair_within(numbers, at + 2 * stride.numbers, stride);
    first.and(second)
}

// Of the last points of a run, fewer than four. By `if`, since a `match` becomes a table of jumps, which takes longer where a run is short.
fn last_within<C: Coordinate>(numbers: &[C], at: usize, n: usize, stride: Stride) -> C::Judged
    requires { (at + n * stride.numbers ≤ length numbers.now) × (n ≤ 3) }
    ensures { C.Judged.holds result ≡ in_range_from C.within at (point_run stride.numbers n) numbers.now }
{
    if n == 0 {
        return C::Judged::of_none();
    }
    if n == 1 {
        return point_within(numbers, at, stride);
    }
    let first = pair_within(numbers, at, stride);
    if n == 2 {
        return first;
    }
    first.and(point_within(numbers, at + 2 * stride.numbers, stride))
}

// Whether the coordinates of n points are in range, with so many numbers from each point to the next. Four points a turn, and out at the first turn
// where one is not. Not by `chunks_exact`: whether a run is in range is said of the index where it begins, and each chunk would be put back at its own.
fn points_within<C: Coordinate>(numbers: &[C], from: usize, n: usize, stride: Stride) -> bool
    requires { from + n * stride.numbers ≤ length numbers.now }
    ensures { result ≡ in_range_from C.within from (point_run stride.numbers n) numbers.now }
{
    for turn in 0..n / 4 {
        if !four_within(numbers, from + 4 * turn * stride.numbers, stride).holds() {
            return false;
        }
    }
    let last = n % 4;
    last_within(numbers, from + (n - last) * stride.numbers, last, stride).holds()
}

// The x of the point at an index less x, and its y less y. Both are arguments, as the C call has them: each is subtracted by itself, and an origin of
// both would be named in every clause. What is moved may be subtracted from: then no pattern is a NaN's, and none is looked for.
fn move_point<C: Coordinate>(numbers: &mut [C], at: usize, stride: Stride, x: C, y: C)
    requires { (at + stride.numbers ≤ length numbers.old) × Movable C.can_minus x y at (point_run stride.numbers 1) numbers.old }
    ensures { numbers.new ≡ moved_from C.minus x y at (point_run stride.numbers 1) numbers.old }
{
    let point_x = numbers[at];
    let point_y = numbers[at + 1];
    numbers[at] = point_x.minus(x);
    numbers[at + 1] = point_y.minus(y);
}

// The same of n points, by the index of each: over `chunks_exact_mut` the proof did not close, since the list's last value is told of by the points lent
// alone.
pub fn move_points<C: Coordinate>(
    numbers: &mut [C],
    from: usize,
    n: usize,
    stride: Stride,
    x: C,
    y: C,
)
    requires { (from + n * stride.numbers ≤ length numbers.old) × Movable C.can_minus x y from (point_run stride.numbers n) numbers.old }
    ensures { numbers.new ≡ moved_from C.minus x y from (point_run stride.numbers n) numbers.old }
{
    for i in 0..n {
        move_point(numbers, from + i * stride.numbers, stride, x, y);
    }
}

// Whether the coordinates of an item are in range: its points behind the numbers before them, then its fit points.
pub fn item_within<C: Coordinate>(numbers: &[C], from: usize, i: Item) -> bool
    requires { Small i × (from + item_size i ≤ length numbers.now) }
    ensures { result ≡ in_range_from C.within from (item_roles i) numbers.now }
{
    let points = from + i.before;
    let fits = points + i.points * i.stride;
    points_within(numbers, points, i.points, Stride { numbers: i.stride })
        && points_within(numbers, fits, i.fit_points, PAIRS)
}

// The same coordinates moved.
pub fn move_item<C: Coordinate>(numbers: &mut [C], from: usize, i: Item, x: C, y: C)
    requires { Small i × (from + item_size i ≤ length numbers.old) × Movable C.can_minus x y from (item_roles i) numbers.old }
    ensures { numbers.new ≡ moved_from C.minus x y from (item_roles i) numbers.old }
{
    let points = from + i.before;
    let fits = points + i.points * i.stride;
    move_points(
        numbers,
        points,
        i.points,
        Stride { numbers: i.stride },
        x,
        y,
    );
    move_points(numbers, fits, i.fit_points, PAIRS, x, y);
}
