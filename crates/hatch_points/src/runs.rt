// Runs of doubles: n RD, which are passed by one comparison, and n BD, each read by its tag; both are stored so far as there is room.
ghost use Rattle.std.specs.Prelude.{◌≡◌, [], map, ◌+◌, ◌*◌, ◌^◌, ◌≤◌, ◌<◌, length};
ghost use Rattle.std.proofs.lemmas.List.Edits.{sets};
ghost use Rattle.bitcursor.specs.Answers.{outcome};
ghost use Rattle.bitcursor.specs.Doubles.{BD};
ghost use Rattle.hatch_points.specs.Gathered.{repeated};
ghost use Rattle.hatch_points.specs.Walks.{raw_run, single_walk, double_run};
ghost use Rattle.hatch_points.specs.Lists.{lists, Ready, Walks, Passes};
ghost use Rattle.hatch_points.specs.Stores.{raw_at, room_for};

use crate::lists;
use crate::lists::Sizes;
use bitcursor::values::Number;
use bitcursor::{Payload, Reading};

// How many of n numbers, the first at `from`, a list of this length has room for.
pub fn stores(n: usize, from: usize, room: usize) -> usize
    ensures { result ≡ room_for n from room }
{
    room.saturating_sub(from).min(n)
}

// Stores the n RD at `at`, which are all there, in a list that has room for them: no turn tests the list's length.
// By the index of each, which says where the double stands too: over `iter_mut` the run would be cut out of the list, and the index come of `enumerate`.
#[tactic(auto, using(crate::proofs::RawRuns::one_more), unfolding(crate::specs::Stores::raw_at))]
fn put_run<N: Number>(s: &Payload, at: usize, n: usize, numbers: &mut [N], from: usize)
    requires { (at + 64 * n ≤ 8 * length s.now) × (from + n ≤ length numbers.old) }
    ensures { numbers.new ≡ sets numbers.old from (map N.of_bits (raw_at s.now at n)) }
{
    let bytes = s.bytes();
    for i in 0..n {
        numbers[from + i] = N::from_bits(loads::eight_at(bytes, at + 64 * i));
    }
}

// Stores the n RD at `at`, which are all there, so far as the list has room.
#[tactic(auto, using(crate::proofs::RawRuns::enough, crate::proofs::RawRuns::none_enough))]
fn put_raw<N: Number>(s: &Payload, at: usize, n: usize, numbers: &mut [N], from: usize)
    requires { at + 64 * n ≤ 8 * length s.now }
    ensures { numbers.new ≡ sets numbers.old from (map N.of_bits (raw_at s.now at n)) }
{
    let m = stores(n, from, numbers.len());
    if m == 0 {
        return;
    }
    put_run(s, at, m, numbers, from);
}

// n RD: where there is nothing to store, one comparison, however many they are; and of none, as seed points mostly are, no more than that.
// Lent the numbers alone: all of Lent would ask its callers for words that it never touches.
pub fn raw_run<N: Number>(
    s: &Payload,
    at: usize,
    n: usize,
    numbers: &mut [N],
    used: Sizes,
) -> Reading<Sizes>
    requires { Ready s.now at used × (n < 2 ^ 32) }
    ensures { Walks N.of_bits s.now ((raw_run n).read s.now at) (lists numbers.old []) used (lists numbers.new []) result }
{
    if n == 0 {
        return Ok((used, at));
    }
    let p = bitcursor::within::skip_bytes(s, at, 8 * n)?;
    put_raw(s, at, n, numbers, used.numbers);
    Ok((used.with_numbers(n), p))
}

// A BD: where the ten bytes from its tag's on are there, by no other comparison with the payload's length. Each loop has it in it, so that
// the one whose numbers no list has room for makes no value.
#[inline(always)]
fn read_knot(s: &Payload, at: usize) -> Reading<u64>
    requires { at ≤ 8 * length s.now }
    ensures { outcome result ≡ BD.read s.now at }
{
    if s.bytes().len() < at / 8 + 10 {
        return bitcursor::within::read_bd_bits(s, at);
    }
    bitcursor::within::read_bd_there(s, at)
}

// n BD, read and stored. As a `Turn`, with `pass_doubles` the same turn over no lists, a stored double took 44 instructions and not 36, and a passed one
// 23 and not 18: each turn hands on the lengths, and one that stores nothing makes the value too. By the index of each: a list that ends before the first
// has no run that could be cut out of it, so `iter_mut` would need a test in front, where `put_number` has it.
fn put_doubles<N: Number>(
    s: &Payload,
    at: usize,
    n: usize,
    numbers: &mut [N],
    used: Sizes,
) -> Reading<Sizes>
    requires { Ready s.now at used }
    ensures { Walks N.of_bits s.now ((repeated n single_walk).read s.now at)
        (lists numbers.old []) used (lists numbers.new []) result }
{
    let mut p = at;
    for i in 0..n {
        let (v, q) = read_knot(s, p)?;
        lists::put_number(numbers, used.numbers + i, v);
        p = q;
    }
    Ok((used.with_numbers(n), p))
}

// n BD that no list has room for: their places alone are wanted. A loop of its own for what is said at `put_doubles`.
fn pass_doubles(s: &Payload, at: usize, n: usize, used: Sizes) -> Reading<Sizes>
    requires { Ready s.now at used }
    ensures { Passes s.now ((repeated n single_walk).read s.now at) used result }
{
    let mut p = at;
    for _ in 0..n {
        let (_, q) = read_knot(s, p)?;
        p = q;
    }
    Ok((used.with_numbers(n), p))
}

// n BD: stored so far as there is room, and passed from there on.
// Lent the numbers alone, as `raw_run`.
pub fn double_run<N: Number>(
    s: &Payload,
    at: usize,
    n: usize,
    numbers: &mut [N],
    used: Sizes,
) -> Reading<Sizes>
    requires { Ready s.now at used }
    ensures { Walks N.of_bits s.now ((double_run n).read s.now at) (lists numbers.old []) used (lists numbers.new []) result }
{
    let m = stores(n, used.numbers, numbers.len());
    let (used, p) = put_doubles(s, at, m, numbers, used)?;
    pass_doubles(s, p, n - m, used)
}
