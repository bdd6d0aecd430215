// A walk that is taken n times, each from where the one before ended: the edges of a path, the paths, the lines of a pattern.
ghost use Rattle.bitcursor.specs.Format.{Format};
ghost use Rattle.bitcursor.specs.Inputs.{one};
ghost use Rattle.hatch_points.specs.Gathered.{Entries, repeated};
ghost use Rattle.hatch_points.specs.Lists.{Ready};
ghost use Rattle.hatch_points.specs.Lent.{LentWalks};

use crate::lists::{Lent, Sizes};
use bitcursor::values::Number;
use bitcursor::{Payload, Reading};

// One turn: what it reads by beside the payload and the lists, and the walk that it takes. A trait and not a closure, since a clause cannot speak of
// what a closure gathers without going over all formats, and no clause may (they are in Type 1).
pub trait Turn: Copy {
    ghost walk: { Self → Format one Entries };

    fn take<N: Number>(
        self,
        s: &Payload,
        at: usize,
        lent: &mut Lent<N>,
        used: Sizes,
    ) -> Reading<Sizes>
        requires { Ready s.now at used }
        ensures { LentWalks N.of_bits s.now ((walk self).read s.now at) lent.old used lent.new result };
}

// n turns.
pub fn repeat<N: Number, T: Turn>(
    turn: T,
    s: &Payload,
    at: usize,
    n: usize,
    lent: &mut Lent<N>,
    used: Sizes,
) -> Reading<Sizes>
    requires { Ready s.now at used }
    ensures { LentWalks N.of_bits s.now ((repeated n (T.walk turn)).read s.now at) lent.old used lent.new result }
{
    let mut p = at;
    let mut used = used;
    for _ in 0..n {
        (used, p) = turn.take(s, p, lent, used)?;
    }
    Ok((used, p))
}
