// What a hatch's record and its two lists hold, defined: no file of the Rust, whose tree is what they hold; document 01, "What the port hands over".
// The functions that judge a record and its lists are in crate whole_lists.
// specs/ read words and numbers back into paths, lines and seeds, prove that this is the inverse of writing them, and say which are coordinates.
#![tactic(auto)]

// What a record says of its lists: its switches as bytes, since across the boundary any byte may stand there, its counts, and the lengths used.
#[derive(Clone, Copy, Debug, PartialEq, Eq)]
pub struct HatchCounts {
    pub solid_fill: u8,
    pub associative: u8,
    pub pattern_double: u8,
    pub num_colors: usize,
    pub num_paths: usize,
    pub num_pattern_lines: usize,
    pub num_seed_points: usize,
    pub words_used: usize,
    pub numbers_used: usize,
}

// Where the coordinates stand among the numbers of one item: a polyline, an edge, a pattern line, or the seed points. First come numbers that are
// no coordinates, then points with so many numbers from each to the next, then fit points, then numbers that are no coordinates.
#[derive(Clone, Copy, Debug, PartialEq, Eq)]
pub struct Item {
    pub before: usize,
    pub points: usize,
    pub stride: usize,
    pub fit_points: usize,
    pub behind: usize,
}

// What follows a path's flags, up to its numbers or edges: its item, and how many parts of the path follow.
#[derive(Clone, Copy, Debug, PartialEq, Eq)]
pub struct Head {
    pub item: Item,
    pub parts: usize,
}
