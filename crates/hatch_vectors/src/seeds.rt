// The part of the list that holds the seed points: the last numbers used, and no number where the list or the record is too short for them.
use hatch::seeds::seed_points;
use hatch_format::HatchBits;

// Whether the part is the last numbers, two for each seed point.
fn are_last(numbers: &[u64], h: &HatchBits) -> bool {
    let n = h.num_seed_points;
    let all = numbers.len();
    n <= all / 2 && seed_points(numbers, h) == &numbers[all - 2 * n..]
}

// Whether a list that lacks its last number has no such part.
fn are_none_in_less(numbers: &[u64], h: &HatchBits) -> bool {
    match numbers {
        [less @ .., _] => seed_points(less, h).is_empty(),
        [] => true,
    }
}

// Whether a record with seed points of which one number alone is used has no such part.
fn are_none_of_less(numbers: &[u64], h: &HatchBits) -> bool {
    let mut less = *h;
    less.numbers_used = 1;
    h.num_seed_points == 0 || seed_points(numbers, &less).is_empty()
}

// Whether all three hold of the numbers used and their record.
pub fn hold(numbers: &[u64], h: &HatchBits) -> bool {
    are_last(numbers, h) && are_none_in_less(numbers, h) && are_none_of_less(numbers, h)
}
