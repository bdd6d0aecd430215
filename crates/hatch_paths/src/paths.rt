// The boundary paths: polylines and lists of edges, each with the count of its boundary handles.
#![tactic(auto, using(hatch_points::proofs::Rows::places, bitcursor::proofs::Smalls::smalls))]

ghost use Rattle.std.specs.Prelude.{◌≡◌, [], ◌∷◌, ◌+◌, ◌/◌, ◌^◌, ◌≤◌, ◌<◌};
ghost use Rattle.std.proofs.lemmas.List.Edits.{sets};
ghost use Rattle.loads.specs.Bits.{bit, odd};
ghost use Rattle.hatch_paths.specs.PathWalks.{polyline_walk, edges_walk, segments_walk, handles_walk, after_flags_walk, path_walk};
ghost use Rattle.hatch_points.specs.Lists.{Ready, WordWalks};
ghost use Rattle.hatch_points.specs.Lent.{LentWalks};
ghost use Rattle.hatch_paths.specs.Fits.{has_fits};

use crate::Rules;
use crate::edges::Edge;
use bitcursor::values::Number;
use bitcursor::{Payload, Reading, within};
use hatch_points::lists::{Lent, Sizes};
use hatch_points::turns::Turn;
use hatch_points::{counts, lists, turns, vertices};

fn put_polyline_head(words: &mut [u32], at: usize, bulge: bool, closed: bool, n: u64)
    requires { (at + 3 < 2 ^ 64) × (n < 2 ^ 32) }
    ensures { words.new ≡ sets words.old at (bit bulge ∷ (bit closed ∷ (n ∷ []))) }
{
    lists::put_word(words, at, u64::from(bulge));
    lists::put_word(words, at + 1, u64::from(closed));
    lists::put_word(words, at + 2, n);
}

// A polyline: whether its vertices have bulges, whether it is closed, and the vertices.
fn decode_polyline_path<N: Number>(
    s: &Payload,
    at: usize,
    rules: Rules,
    lent: &mut Lent<N>,
    used: Sizes,
) -> Reading<Sizes>
    requires { Ready s.now at used }
    ensures { LentWalks N.of_bits s.now ((polyline_walk rules.caps).read s.now at) lent.old used lent.new result }
{
    let (bulge, p) = within::read_flag(s, at)?;
    let (closed, q) = within::read_flag(s, p)?;
    let (n, r) = counts::read_count(s, q, rules.caps.vertices)?;
    put_polyline_head(lent.words, used.words, bulge, closed, n);
    vertices::decode_points(s, r, n as usize, bulge, lent.numbers, used.with_words(3))
}

fn decode_edge_path<N: Number>(
    s: &Payload,
    at: usize,
    rules: Rules,
    lent: &mut Lent<N>,
    used: Sizes,
) -> Reading<Sizes>
    requires { Ready s.now at used }
    ensures { LentWalks N.of_bits s.now ((edges_walk rules.caps (has_fits rules.version)).read s.now at) lent.old used lent.new result }
{
    let (n, p) = counts::read_count(s, at, rules.caps.edges)?;
    lists::put_word(lent.words, used.words, n);
    turns::repeat(Edge(rules), s, p, n as usize, lent, used.with_words(1))
}

// A polyline or edges. Which of the two, the path's flags say: a closure in its place would put this `if` into its caller.
#[tactic(auto, unfolding(crate::specs::PathWalks::segments_walk))]
fn decode_segments<N: Number>(
    s: &Payload,
    at: usize,
    polyline: bool,
    rules: Rules,
    lent: &mut Lent<N>,
    used: Sizes,
) -> Reading<Sizes>
    requires { Ready s.now at used }
    ensures { LentWalks N.of_bits s.now ((segments_walk rules.caps (has_fits rules.version) polyline).read s.now at) lent.old used lent.new result }
{
    if polyline {
        return decode_polyline_path(s, at, rules, lent, used);
    }
    decode_edge_path(s, at, rules, lent, used)
}

// A value in the flags, 2 or 4, as a test.
fn has_flag(flags: u64, value: u64) -> bool
    requires { 0 < value }
    ensures { result ≡ odd (flags / value) }
{
    flags / value % 2 == 1
}

// The count of boundary handles, behind a path's segments: the handles are not here.
// Lent the words alone: all of Lent would ask its caller for numbers that it never touches.
fn put_handle_count(
    s: &Payload,
    at: usize,
    rules: Rules,
    words: &mut [u32],
    used: Sizes,
) -> Reading<Sizes>
    requires { Ready s.now at used }
    ensures { WordWalks s.now ((handles_walk rules.caps.boundary_handles).read s.now at) words.old used words.new result }
{
    let (n, p) = counts::read_count(s, at, rules.caps.boundary_handles)?;
    lists::put_word(words, used.words, n);
    Ok((used.with_words(1), p))
}

// What follows a path's flags: segments and handle count. Which segments is handed on, as `decode_segments` has it.
fn decode_after_flags<N: Number>(
    s: &Payload,
    at: usize,
    polyline: bool,
    rules: Rules,
    lent: &mut Lent<N>,
    used: Sizes,
) -> Reading<Sizes>
    requires { Ready s.now at used }
    ensures { LentWalks N.of_bits s.now ((after_flags_walk rules.caps (has_fits rules.version) polyline).read s.now at) lent.old used lent.new result }
{
    let (used, p) = decode_segments(s, at, polyline, rules, lent, used)?;
    put_handle_count(s, p, rules, lent.words, used)
}

// A path: its flags, a polyline where they say so and else edges, and its handle count. A type beside Edge, since the walk of a turn is its type's.
#[derive(Clone, Copy)]
pub struct Path(pub Rules);

impl Turn for Path {
    ghost walk = { λ path. path_walk path.0.caps (has_fits path.0.version) };

    fn take<N: Number>(
        self,
        s: &Payload,
        at: usize,
        lent: &mut Lent<N>,
        used: Sizes,
    ) -> Reading<Sizes> {
        let (flags, p) = within::read_bl_u(s, at)?;
        lists::put_word(lent.words, used.words, flags);
        let used = Sizes {
            derived: used.derived | has_flag(flags, 4),
            ..used.with_words(1)
        };
        decode_after_flags(s, p, has_flag(flags, 2), self.0, lent, used)
    }
}
