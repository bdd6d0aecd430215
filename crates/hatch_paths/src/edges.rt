// The edges of a path: walks that store what they read.
#![tactic(auto, using(hatch_points::proofs::Rows::places, bitcursor::proofs::Smalls::smalls))]

ghost use Rattle.std.specs.Prelude.{◌≡◌, [], ◌∷◌, ◌+◌, ◌*◌, ◌^◌, ◌≤◌, ◌<◌, length};
ghost use Rattle.std.proofs.lemmas.List.Edits.{sets};
ghost use Rattle.loads.specs.Bits.{bit};
ghost use Rattle.bitcursor.specs.Answers.{outcome};
ghost use Rattle.hatch_paths.specs.PathWalks.{bit_walk, curve_walk, fitted_raw, fits_walk, spline_lists_walk, spline_walk, edge_of_walk, edge_walk};
ghost use Rattle.hatch_points.specs.Lists.{Ready, WordWalks};
ghost use Rattle.hatch_points.specs.Lent.{LentWalks};
ghost use Rattle.hatch_paths.specs.Splines.{spline_head};
ghost use Rattle.hatch_paths.specs.Fits.{has_fits};

use crate::Rules;
use bitcursor::values::Number;
use bitcursor::{Payload, Reading, Refusal, refuse, within};
use hatch_format::Caps;
use hatch_points::lists::{Lent, Sizes};
use hatch_points::turns::Turn;
use hatch_points::{counts, lists, runs, vertices};
use text::version::Version;

// A spline's fields in front of its lists.
#[derive(Clone, Copy, Debug, PartialEq, Eq)]
pub struct SplineHead {
    pub degree: u64,
    pub rational: bool,
    pub periodic: bool,
    pub knots: u64,
    pub controls: u64,
}

// What follows the kind of an arc, which has 2 RD, or of an ellipse, which has 4: then 3 BD, and a B for counterclockwise.
fn decode_curve<N: Number>(
    s: &Payload,
    at: usize,
    n: usize,
    lent: &mut Lent<N>,
    used: Sizes,
) -> Reading<Sizes>
    requires { Ready s.now at used × (n < 2 ^ 32) }
    ensures { LentWalks N.of_bits s.now ((curve_walk n).read s.now at) lent.old used lent.new result }
{
    let (used, p) = runs::raw_run(s, at, n, lent.numbers, used)?;
    let (used, p) = runs::double_run(s, p, 3, lent.numbers, used)?;
    put_bit(s, p, lent.words, used)
}

// A bit that goes to the words. Lent the words alone: all of Lent would ask its caller for numbers that it never touches.
fn put_bit(s: &Payload, at: usize, words: &mut [u32], used: Sizes) -> Reading<Sizes>
    requires { Ready s.now at used }
    ensures { WordWalks s.now (bit_walk.read s.now at) words.old used words.new result }
{
    let (v, p) = within::read_flag(s, at)?;
    lists::put_word(words, used.words, u64::from(v));
    Ok((used.with_words(1), p))
}

// The fit points and tangents of a spline, behind their count; releases before 5 have none, and the count's word is 0.
fn decode_fits<N: Number>(
    s: &Payload,
    at: usize,
    rules: Rules,
    lent: &mut Lent<N>,
    used: Sizes,
) -> Reading<Sizes>
    requires { Ready s.now at used × (used.words + 1 ≤ at) }
    ensures { LentWalks N.of_bits s.now ((fits_walk rules.caps.fit_points (has_fits rules.version)).read s.now at) lent.old used lent.new result }
{
    if rules.version.is_from(Version::R2010) {
        let (n, p) = counts::read_count(s, at, rules.caps.fit_points)?;
        lists::put_word(lent.words, used.words, n);
        return runs::raw_run(
            s,
            p,
            fitted_raw(n as usize),
            lent.numbers,
            used.with_words(1),
        );
    }
    lists::put_word(lent.words, used.words, 0);
    Ok((used.with_words(1), at))
}

// How many RD n fit points and their tangents are: without points there are no tangents.
fn fitted_raw(n: usize) -> usize
    requires { n < 2 ^ 30 }
    ensures { (result ≡ fitted_raw n) × (result < 2 ^ 32) }
{
    if n == 0 {
        return 0;
    }
    2 * n + 4
}

// The lists of a spline: knots, control points, fit points.
fn decode_spline_lists<N: Number>(
    s: &Payload,
    at: usize,
    head: SplineHead,
    rules: Rules,
    lent: &mut Lent<N>,
    used: Sizes,
) -> Reading<Sizes>
    requires { Ready s.now at used × ((used.words + 1 ≤ at) × (head.controls < 2 ^ 31)) }
    ensures { LentWalks N.of_bits s.now ((spline_lists_walk rules.caps (has_fits rules.version) head.rational head.knots head.controls).read s.now at)
        lent.old used lent.new result }
{
    let (used, p) = runs::double_run(s, at, head.knots as usize, lent.numbers, used)?;
    let (used, p) = vertices::decode_points(
        s,
        p,
        head.controls as usize,
        head.rational,
        lent.numbers,
        used,
    )?;
    decode_fits(s, p, rules, lent, used)
}

// The fields of a spline in front of its lists: both counts are tested before any knot is read.
#[tactic(auto, using(bitcursor::proofs::FormatSteps::fields), unfolding(crate::specs::Splines::spline_head))]
fn read_spline_head(s: &Payload, at: usize, caps: Caps) -> Reading<SplineHead>
    ensures { outcome result ≡ (spline_head caps).read s.now at }
{
    let (degree, p) = within::read_bl_u(s, at)?;
    let (rational, q) = within::read_flag(s, p)?;
    let (periodic, r) = within::read_flag(s, q)?;
    let (knots, t) = counts::read_count(s, r, caps.knots)?;
    let (controls, u) = counts::read_count(s, t, caps.control_points)?;
    let head = SplineHead {
        degree,
        rational,
        periodic,
        knots,
        controls,
    };
    Ok((head, u))
}

// The words of a spline behind its kind, but for the count of fit points.
fn put_spline_head(words: &mut [u32], at: usize, head: SplineHead)
    requires { (at + 5 < 2 ^ 64) × ((head.degree < 2 ^ 32) × ((head.knots < 2 ^ 32) × (head.controls < 2 ^ 32))) }
    ensures { words.new ≡ sets words.old at (head.degree ∷ (bit head.rational ∷ (bit head.periodic ∷ (head.knots ∷ (head.controls ∷ []))))) }
{
    lists::put_word(words, at, head.degree);
    lists::put_word(words, at + 1, u64::from(head.rational));
    lists::put_word(words, at + 2, u64::from(head.periodic));
    lists::put_word(words, at + 3, head.knots);
    lists::put_word(words, at + 4, head.controls);
}

// A spline, behind its kind.
#[tactic(auto, using(crate::proofs::SplineHeads::head_end))]
fn decode_spline_edge<N: Number>(
    s: &Payload,
    at: usize,
    rules: Rules,
    lent: &mut Lent<N>,
    used: Sizes,
) -> Reading<Sizes>
    requires { Ready s.now at used }
    ensures { LentWalks N.of_bits s.now ((spline_walk rules.caps (has_fits rules.version)).read s.now at) lent.old used lent.new result }
{
    let (head, p) = read_spline_head(s, at, rules.caps)?;
    put_spline_head(lent.words, used.words, head);
    decode_spline_lists(s, p, head, rules, lent, used.with_words(5))
}

// What follows an edge's kind. The kinds are document 01's numbers: an enum of them would be made here and matched here, and its refusal
// would still need the place.
#[tactic(auto, using(crate::proofs::EdgeLaws::other_kind), unfolding(crate::specs::PathWalks::edge_of_walk))]
fn decode_edge_of<N: Number>(
    s: &Payload,
    at: usize,
    kind: u64,
    rules: Rules,
    lent: &mut Lent<N>,
    used: Sizes,
) -> Reading<Sizes>
    requires { Ready s.now at used }
    ensures { LentWalks N.of_bits s.now ((edge_of_walk rules.caps (has_fits rules.version) kind).read s.now at) lent.old used lent.new result }
{
    match kind {
        1 => runs::raw_run(s, at, 4, lent.numbers, used),
        2 => decode_curve(s, at, 2, lent, used),
        3 => decode_curve(s, at, 4, lent, used),
        4 => decode_spline_edge(s, at, rules, lent, used),
        _ => refuse(Refusal::EdgeKind, at),
    }
}

// An edge: its kind, and what the kind has.
#[derive(Clone, Copy)]
pub struct Edge(pub Rules);

impl Turn for Edge {
    ghost walk = { λ e. edge_walk e.0.caps (has_fits e.0.version) };

    fn take<N: Number>(
        self,
        s: &Payload,
        at: usize,
        lent: &mut Lent<N>,
        used: Sizes,
    ) -> Reading<Sizes> {
        let (kind, p) = within::read_low(s, at, 1)?;
        lists::put_word(lent.words, used.words, kind);
        decode_edge_of(s, p, kind, self.0, lent, used.with_words(1))
    }
}
