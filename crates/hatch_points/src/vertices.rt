// The points of polylines and splines that have a double behind each: 2 RD and a BD, n times.
ghost use Rattle.std.specs.Prelude.{◌≡◌, [], map, ◌+◌, ◌*◌, ◌^◌, ◌≤◌, ◌<◌, length};
ghost use Rattle.std.proofs.lemmas.List.Edits.{sets};
ghost use Rattle.hatch_points.specs.Gathered.{repeated};
ghost use Rattle.hatch_points.specs.Walks.{vertex_walk, vertices_walk};
ghost use Rattle.hatch_points.specs.Lists.{lists, Ready, Walks, Passes};
ghost use Rattle.hatch_points.specs.Vertices.{vertex_at, Extra};

use crate::lists::Sizes;
use crate::{lists, runs};
use bitcursor::values::Number;
use bitcursor::{Payload, Reading};

// The double behind a point, and the place after it; the point is passed by one comparison. Each loop has it in it, as `read_knot`.
#[inline(always)]
fn read_extra(s: &Payload, at: usize) -> Reading<u64>
    requires { at ≤ 8 * length s.now }
    ensures { Extra s.now at result }
{
    let p = bitcursor::within::skip_bytes(s, at, 16)?;
    if s.bytes().len() < p / 8 + 10 {
        return bitcursor::within::read_bd_bits(s, p);
    }
    bitcursor::within::read_bd_there(s, p)
}

// Stores the point at `at`, which is there, and the double behind it.
fn put_vertex<N: Number>(s: &Payload, at: usize, extra: u64, numbers: &mut [N], from: usize)
    requires { (at + 128 ≤ 8 * length s.now) × (from + 3 < 2 ^ 64) }
    ensures { numbers.new ≡ sets numbers.old from (map N.of_bits (vertex_at s.now at extra)) }
{
    let bytes = s.bytes();
    lists::put_number(numbers, from, loads::eight_at(bytes, at));
    lists::put_number(numbers, from + 1, loads::eight_at(bytes, at + 64));
    lists::put_number(numbers, from + 2, extra);
}

// n of them, read and stored: a loop of its own, and so the next, for what is said at `put_doubles`; by the index of each, since the list may
// have room for a part of the last alone.
fn put_vertices<N: Number>(
    s: &Payload,
    at: usize,
    n: usize,
    numbers: &mut [N],
    used: Sizes,
) -> Reading<Sizes>
    requires { Ready s.now at used }
    ensures { Walks N.of_bits s.now ((repeated n vertex_walk).read s.now at)
        (lists numbers.old []) used (lists numbers.new []) result }
{
    let mut p = at;
    for i in 0..n {
        let (extra, q) = read_extra(s, p)?;
        put_vertex(s, p, extra, numbers, used.numbers + 3 * i);
        p = q;
    }
    Ok((used.with_numbers(3 * n), p))
}

// n of them that no list has room for: their places alone are wanted.
fn pass_vertices(s: &Payload, at: usize, n: usize, used: Sizes) -> Reading<Sizes>
    requires { Ready s.now at used }
    ensures { Passes s.now ((repeated n vertex_walk).read s.now at) used result }
{
    let mut p = at;
    for _ in 0..n {
        let (_, q) = read_extra(s, p)?;
        p = q;
    }
    Ok((used.with_numbers(3 * n), p))
}

// n of them: stored so far as there is room, and passed from there on. Three lines, as `double_run` has them: one function for both would be lent both
// loops, and how many numbers a turn stores. Lent the numbers alone, as `raw_run`.
pub fn decode_vertices<N: Number>(
    s: &Payload,
    at: usize,
    n: usize,
    numbers: &mut [N],
    used: Sizes,
) -> Reading<Sizes>
    requires { Ready s.now at used × (n < 2 ^ 31) }
    ensures { Walks N.of_bits s.now ((repeated n vertex_walk).read s.now at)
        (lists numbers.old []) used (lists numbers.new []) result }
{
    let m = (runs::stores(3 * n, used.numbers, numbers.len()) + 2) / 3;
    let (used, p) = put_vertices(s, at, m, numbers, used)?;
    pass_vertices(s, p, n - m, used)
}

// n points, with a double behind each or without: without one they are a run of RD. Which of the two, the payload says: the callers have it as a flag,
// and a closure in its place would put this `if` into each of them.
// Lent the numbers alone, as `raw_run`.
#[tactic(auto, unfolding(crate::specs::Walks::vertices_walk))]
pub fn decode_points<N: Number>(
    s: &Payload,
    at: usize,
    n: usize,
    more: bool,
    numbers: &mut [N],
    used: Sizes,
) -> Reading<Sizes>
    requires { Ready s.now at used × (n < 2 ^ 31) }
    ensures { Walks N.of_bits s.now ((vertices_walk more n).read s.now at)
        (lists numbers.old []) used (lists numbers.new []) result }
{
    if more {
        return decode_vertices(s, at, n, numbers, used);
    }
    runs::raw_run(s, at, 2 * n, numbers, used)
}
