// The words of one item of a hatch's lists, found at an index: no file of the Rust; document 01, "What the port hands over", and document 02, L1.
// An item is an edge, a path's head, a handle count or a pattern line; words that are missing, and words that no hatch has, are not whole.
// specs/ promise of each that it is crate hatch_lists' step from the index on, and the index of the word behind it. Words and an index go in, and the
// index comes out, since a walk holds it beside that of the numbers (crate whole_lists).
#![tactic(auto)]

ghost use Rattle.std.specs.Prelude.{◌≡◌, Some, ◌≤◌, ◌<◌, length};
ghost use Rattle.hatch_format.specs.Caps.{document_caps};
ghost use Rattle.hatch_lists.specs.Items.{tangent_numbers};
ghost use Rattle.hatch_lists.specs.Steps.{a_word, a_switch, a_count, turned_step, spline_step, edge_step, handles_step};
ghost use Rattle.hatch_lists.specs.Steps.{polyline_step, edges_step, head_step, line_step};
ghost use Rattle.list_items.specs.Found.{Finds, Reads, IsWord, IsSwitch, IsCount, Small, SmallHead, polyline_words, spline_words};

use hatch_lists::{Head, Item};

// No numbers, as a count alone has.
const NO_ITEM: Item = Item {
    before: 0,
    points: 0,
    stride: 2,
    fit_points: 0,
    behind: 0,
};

// The word at an index, if there is one, as a count.
fn word(words: &[u32], at: usize) -> Option<usize>
    ensures { Reads IsWord words.now at result a_word }
{
    let n = words.get(at)?;
    Some(*n as usize)
}

// A word that is at most so much.
fn count(words: &[u32], at: usize, most: usize) -> Option<usize>
    ensures { Reads (IsCount most) words.now at result (a_count most) }
{
    let n = word(words, at)?;
    if most < n {
        return None;
    }
    Some(n)
}

// A word that is 0 or 1.
fn switch(words: &[u32], at: usize) -> Option<bool>
    ensures { Reads IsSwitch words.now at result a_switch }
{
    let n = count(words, at, 1)?;
    Some(n != 0)
}

// Two tangents behind fit points.
fn tangent_numbers(fit_points: usize) -> usize
    ensures { result ≡ tangent_numbers fit_points }
{
    if fit_points == 0 { 0 } else { 4 }
}

// Behind an arc's or an ellipse's kind: a switch; so many points stand before so many other numbers.
fn turned_item(words: &[u32], at: usize, points: usize, behind: usize) -> Option<(Item, usize)>
    requires { (points ≤ 2) × (behind ≤ 8) }
    ensures { Finds Small words.now at result (turned_step points behind) }
{
    switch(words, at)?;
    let item = Item {
        points,
        behind,
        ..NO_ITEM
    };
    Some((item, at + 1))
}

// A spline's two switches are 0 or 1, its three counts within document 01's caps.
fn is_spline(rational: u32, periodic: u32, knots: u32, controls: u32, fits: u32) -> bool
    ensures { result ≡ spline_words rational periodic knots controls fits }
{
    let caps = hatch_format::document_caps();
    rational <= 1
        && periodic <= 1
        && knots as usize <= caps.knots
        && controls as usize <= caps.control_points
        && fits as usize <= caps.fit_points
}

// Behind a spline's kind: degree, two switches and three counts; knots, control points, fit points and tangents.
#[tactic(auto, using(crate::proofs::Ahead::spline_few, crate::proofs::Ahead::spline_ahead, crate::proofs::Ahead::spline_other))]
fn spline_item(words: &[u32], at: usize) -> Option<(Item, usize)>
    requires { at ≤ length words.now }
    ensures { Finds Small words.now at result (spline_step document_caps) }
{
    let [_degree, rational, periodic, knots, controls, fits, ..] = &words[at..] else {
        return None;
    };
    if !is_spline(*rational, *periodic, *knots, *controls, *fits) {
        return None;
    }
    let fit_points = *fits as usize;
    let item = Item {
        before: *knots as usize,
        points: *controls as usize,
        stride: 2 + *rational as usize,
        fit_points,
        behind: tangent_numbers(fit_points),
    };
    Some((item, at + 6))
}

// An edge: its kind, and what the kind has.
// The kinds are document 01's numbers, matched where the word is read: an enum of them would be made and matched here alone.
pub fn edge_item(words: &[u32], at: usize) -> Option<(Item, usize)>
    ensures { Finds Small words.now at result (edge_step document_caps) }
{
    match word(words, at)? {
        1 => Some((
            Item {
                points: 2,
                ..NO_ITEM
            },
            at + 1,
        )),
        2 => turned_item(words, at + 1, 1, 3),
        3 => turned_item(words, at + 1, 1, 5),
        4 => spline_item(words, at + 1),
        _ => None,
    }
}

// The handle count of a path of edges, which has no numbers.
pub fn handles_item(words: &[u32], at: usize) -> Option<(Item, usize)>
    ensures { Finds Small words.now at result (handles_step document_caps) }
{
    let _handles = count(words, at, hatch_format::document_caps().boundary_handles)?;
    Some((NO_ITEM, at + 1))
}

// A pattern line: angle, origin, offset and so many dashes.
pub fn line_item(words: &[u32], at: usize) -> Option<(Item, usize)>
    ensures { Finds Small words.now at result (line_step document_caps) }
{
    let dashes = count(words, at, hatch_format::document_caps().dashes)?;
    let item = Item {
        before: 1,
        points: 1,
        behind: 2 + dashes,
        ..NO_ITEM
    };
    Some((item, at + 1))
}

// A polyline's two switches are 0 or 1, its two counts within document 01's caps.
fn is_polyline(bulge: u32, closed: u32, vertices: u32, handles: u32) -> bool
    ensures { result ≡ polyline_words bulge closed vertices handles }
{
    let caps = hatch_format::document_caps();
    bulge <= 1
        && closed <= 1
        && vertices as usize <= caps.vertices
        && handles as usize <= caps.boundary_handles
}

// Behind a polyline's flags: all its words, the handle count too.
#[tactic(auto, using(crate::proofs::Ahead::polyline_few, crate::proofs::Ahead::polyline_ahead, crate::proofs::Ahead::polyline_other))]
fn polyline_head(words: &[u32], at: usize) -> Option<(Head, usize)>
    requires { at ≤ length words.now }
    ensures { Finds SmallHead words.now at result (polyline_step document_caps) }
{
    let [bulge, closed, vertices, handles, ..] = &words[at..] else {
        return None;
    };
    if !is_polyline(*bulge, *closed, *vertices, *handles) {
        return None;
    }
    let item = Item {
        points: *vertices as usize,
        stride: 2 + *bulge as usize,
        ..NO_ITEM
    };
    Some((Head { item, parts: 0 }, at + 4))
}

// Behind the flags of a path of edges: how many; the parts that follow are these and a handle count.
fn edges_head(words: &[u32], at: usize) -> Option<(Head, usize)>
    ensures { Finds SmallHead words.now at result (edges_step document_caps) }
{
    let edges = count(words, at, hatch_format::document_caps().edges)?;
    let head = Head {
        item: NO_ITEM,
        parts: edges + 1,
    };
    Some((head, at + 1))
}

// A path's flags, and what follows them up to its numbers or edges.
pub fn path_head(words: &[u32], at: usize) -> Option<(Head, usize)>
    ensures { Finds SmallHead words.now at result (head_step document_caps) }
{
    if word(words, at)? / 2 % 2 == 1 {
        polyline_head(words, at + 1)
    } else {
        edges_head(words, at + 1)
    }
}
