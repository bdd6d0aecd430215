// The seed points of a hatch: the last numbers of the list that a call filled.
ghost use Rattle.std.specs.Prelude.{◌≡◌};
ghost use Rattle.hatch.specs.Seeds.{seeds_of};

use hatch_format::Hatch;

// The part of the list that holds the record's seed points; an empty part where the list or the lengths used are too short for them.
pub fn seed_points<'a, N, C>(numbers: &'a [N], hatch: &Hatch<N, C>) -> &'a [N]
    ensures { result.now ≡ seeds_of numbers.now hatch.now.numbers_used hatch.now.num_seed_points }
{
    let used = hatch.numbers_used;
    let n = hatch.num_seed_points;
    if used <= numbers.len() && n <= used / 2 {
        return &numbers[used - 2 * n..used];
    }
    &numbers[0..0]
}
