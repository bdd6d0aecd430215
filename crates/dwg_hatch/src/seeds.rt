// Where the seed points lie among the numbers that a hatch call filled.
// specs/SeedBoundary promises the part that crate hatch hands out, as a first index and a count.
ghost use Rattle.std.specs.Prelude.{◌≡◌};
ghost use Rattle.dwg_hatch.specs.SeedBoundary.{seed_part};

// A part of the list of numbers: its first index, and how many numbers it has, two for each seed point. Indices and no slice, as C has no slice to be handed.
#[repr(C)]
#[derive(Drop)]
pub struct SeedPart {
    pub begin: usize,
    pub count: usize,
}

// The part that holds the seed points of a reading, by the reading's two fields and the list's length; an empty part at 0 where the list or
// the numbers used are too few for them.
#[unsafe(no_mangle)]
pub extern "C" fn dwg_hatch_seed_points(
    numbers_used: usize,
    num_seed_points: usize,
    length: usize,
) -> SeedPart
    ensures { result ≡ seed_part length numbers_used num_seed_points }
{
    if numbers_used <= length && num_seed_points <= numbers_used / 2 {
        return SeedPart {
            begin: numbers_used - 2 * num_seed_points,
            count: 2 * num_seed_points,
        };
    }
    SeedPart { begin: 0, count: 0 }
}
