// What follows the pattern's name: switches, paths, pattern, pixel size and seeds. It measures where the lists are empty, and fills them else.
ghost use Rattle.hatch_format.specs.HandleRule.{in_payload};
ghost use Rattle.hatch_format.specs.Patterns.{rest};
ghost use Rattle.hatch_rest.specs.Tails.{LentGives};
ghost use Rattle.hatch_rest.specs.Rests.{no_sizes, rest_of, rest_entries};

use crate::patterns;
use crate::patterns::Tail;
use bitcursor::values::Number;
use bitcursor::{Payload, Reading, Refusal, refuse, within};
use hatch_paths::Rules;
use hatch_paths::paths::Path;
use hatch_points::lists::{Lent, Sizes};
use hatch_points::{counts, turns};

// A solid hatch is one without a pattern.
#[derive(Clone, Copy, Debug, PartialEq, Eq)]
pub struct Rest {
    pub associative: bool,
    pub paths: usize,
    pub tail: Tail,
}

// A place at the payload's end, or past it, is refused as the first field would be: behind that test it is known that the place lies in the
// payload, and the payload within the limit.
pub fn decode_rest<N: Number>(
    s: &Payload,
    at: usize,
    rules: Rules,
    lent: &mut Lent<N>,
) -> Reading<(Rest, Sizes)>
    ensures { LentGives N.of_bits s.now rest_of rest_entries ((rest rules.caps in_payload rules.version).read s.now at) lent.old no_sizes lent.new result }
{
    if s.size() <= at {
        return refuse(Refusal::TooFewBits, at);
    }
    let (solid, p) = within::read_flag(s, at)?;
    let (associative, p) = within::read_flag(s, p)?;
    let (n, p) = counts::read_count(s, p, rules.caps.paths)?;
    let count = n as usize;
    let none = Sizes {
        numbers: 0,
        words: 0,
        derived: false,
    };
    let (used, p) = turns::repeat(Path(rules), s, p, count, lent, none)?;
    let has = used.derived;
    let caps = rules.caps;
    let ((tail, used), p) = patterns::decode_tail(s, p, solid, has, caps, lent, used)?;
    let rest = Rest {
        associative,
        paths: count,
        tail,
    };
    Ok(((rest, used), p))
}
