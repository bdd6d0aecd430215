// What follows the paths: the pattern with its lines, and the last fields.
ghost use Rattle.std.specs.Prelude.{◌≡◌, []};
ghost use Rattle.bitcursor.specs.Answers.{outcome};
ghost use Rattle.bitcursor.specs.Doubles.{BD};
ghost use Rattle.bitcursor.specs.Held.{held};
ghost use Rattle.hatch_format.specs.Patterns.{pattern, ending, tail};
ghost use Rattle.hatch_points.specs.Lists.{lists, Ready};
ghost use Rattle.hatch_rest.specs.Heads.{pattern_head};
ghost use Rattle.hatch_rest.specs.LineGathers.{line_walk};
ghost use Rattle.hatch_rest.specs.Tails.{Gives, LentGives, pattern_of, pattern_entries, ending_of, ending_entries, tail_of, tail_entries};

use bitcursor::values::Number;
use bitcursor::{Payload, Reading, within};
use hatch_format::Caps;
use hatch_points::lists::{Lent, Sizes};
use hatch_points::turns::Turn;
use hatch_points::{counts, lists, runs, turns};

// What a hatch has that is not solid, with the count of its lines.
#[derive(Clone, Copy, Debug, PartialEq, Eq)]
pub struct Pattern {
    pub angle: u64,
    pub scale: u64,
    pub double: bool,
    pub lines: usize,
}

// The last fields, with the count of seed points.
#[derive(Clone, Copy, Debug, PartialEq, Eq)]
pub struct Ending {
    pub pixel_size: u64,
    pub seed_points: usize,
}

// What follows the paths; no pattern where the hatch is solid. Style and type are handed over as they are read, whatever number they are.
#[derive(Clone, Copy, Debug, PartialEq, Eq)]
pub struct Tail {
    pub style: u64,
    pub kind: u64,
    pub pattern: Option<Pattern>,
    pub ending: Ending,
}

// A pattern line, with the cap of its dashes: angle, origin and offset, the count of dashes as a word, and the dashes.
#[derive(Clone, Copy, Debug, PartialEq, Eq)]
struct Line(usize);

impl Turn for Line {
    ghost walk = { λ line. line_walk line.0 };

    fn take<N: Number>(
        self,
        s: &Payload,
        at: usize,
        lent: &mut Lent<N>,
        used: Sizes,
    ) -> Reading<Sizes> {
        let (used, p) = runs::double_run(s, at, 5, lent.numbers, used)?;
        let (n, p) = counts::read_short_count(s, p, self.0)?;
        lists::put_word(lent.words, used.words, n);
        runs::double_run(s, p, n as usize, lent.numbers, used.with_words(1))
    }
}

// The fields of a pattern in front of its lines, with their count.
#[tactic(auto, using(bitcursor::proofs::FormatSteps::fields), unfolding(crate::specs::Heads::pattern_head))]
fn read_pattern_head(s: &Payload, at: usize, cap: usize) -> Reading<Pattern>
    ensures { outcome result ≡ (pattern_head cap).read s.now at }
{
    let (angle, p) = within::read_bd_bits(s, at)?;
    let (scale, p) = within::read_bd_bits(s, p)?;
    let (double, p) = within::read_flag(s, p)?;
    let (n, p) = counts::read_short_count(s, p, cap)?;
    let pattern = Pattern {
        angle,
        scale,
        double,
        lines: n as usize,
    };
    Ok((pattern, p))
}

// A solid hatch has no pattern, and nothing is read. Which, the body says: a closure in its place would put this `if` into its caller.
fn decode_pattern<N: Number>(
    s: &Payload,
    at: usize,
    solid: bool,
    caps: Caps,
    lent: &mut Lent<N>,
    used: Sizes,
) -> Reading<(Option<Pattern>, Sizes)>
    requires { Ready s.now at used }
    ensures { LentGives N.of_bits s.now (pattern_of solid) pattern_entries ((pattern caps solid).read s.now at) lent.old used lent.new result }
{
    if solid {
        return Ok(((None, used), at));
    }
    let (pattern, p) = read_pattern_head(s, at, caps.pattern_lines)?;
    let (used, p) = turns::repeat(Line(caps.dashes), s, p, pattern.lines, lent, used)?;
    Ok(((Some(pattern), used), p))
}

// The pixel size is there if a path came from a boundary object. By hand, and not by sequence's `held`: that crate is the prefix's, beside which the
// hatch's crates stand.
#[tactic(auto, using(bitcursor::proofs::Steps::reading), unfolding(bitcursor::specs::Held::held))]
fn read_pixel_size(s: &Payload, at: usize, has: bool) -> Reading<u64>
    ensures { outcome result ≡ (held has BD 0).read s.now at }
{
    if has {
        return within::read_bd_bits(s, at);
    }
    Ok((0, at))
}

// The last fields. Lent the numbers alone: all of Lent would ask its callers for words that it never touches.
fn decode_ending<N: Number>(
    s: &Payload,
    at: usize,
    has: bool,
    caps: Caps,
    numbers: &mut [N],
    used: Sizes,
) -> Reading<(Ending, Sizes)>
    requires { Ready s.now at used }
    ensures { Gives N.of_bits s.now ending_of ending_entries ((ending caps has).read s.now at)
        (lists numbers.old []) used (lists numbers.new []) result }
{
    let (pixel_size, p) = read_pixel_size(s, at, has)?;
    let (n, p) = counts::read_count(s, p, caps.seed_points)?;
    let seed_points = n as usize;
    let (used, p) = runs::raw_run(s, p, 2 * seed_points, numbers, used)?;
    let ending = Ending {
        pixel_size,
        seed_points,
    };
    Ok(((ending, used), p))
}

// What follows the paths: style, type, the pattern and the last fields.
pub fn decode_tail<N: Number>(
    s: &Payload,
    at: usize,
    solid: bool,
    has: bool,
    caps: Caps,
    lent: &mut Lent<N>,
    used: Sizes,
) -> Reading<(Tail, Sizes)>
    requires { Ready s.now at used }
    ensures { LentGives N.of_bits s.now (tail_of solid) tail_entries ((tail caps solid has).read s.now at) lent.old used lent.new result }
{
    let (style, p) = within::read_bs_u(s, at)?;
    let (kind, p) = within::read_bs_u(s, p)?;
    let ((pattern, used), p) = decode_pattern(s, p, solid, caps, lent, used)?;
    let ((ending, used), p) = decode_ending(s, p, has, caps, lent.numbers, used)?;
    let tail = Tail {
        style,
        kind,
        pattern,
        ending,
    };
    Ok(((tail, used), p))
}
