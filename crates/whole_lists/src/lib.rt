// Whether a record and its lists are whole, and the way through them item by item: no file of the Rust; document 02, L1 (refusal 11).
// One walk over the words, on any record and any lists; numbers are counted and not looked at.
// specs/ promise whole exactly where crate hatch_lists reads the lists to their ends, and of each step that it is that of the walk defined there.
#![tactic(auto)]

ghost use Rattle.std.specs.Prelude.{◌≡◌, false, Some, ◌≤◌, ◌<◌, length};
ghost use Rattle.hatch_format.specs.Caps.{document_caps};
ghost use Rattle.hatch_lists.specs.Items.{item_size};
ghost use Rattle.hatch_lists.specs.Whole.{switches, counted, fitting};
ghost use Rattle.list_items.specs.Found.{Small};
ghost use Rattle.whole_lists.specs.Stepped.{Within, finished, passed_to, Steps};
ghost use Rattle.whole_lists.specs.Ended.{start_of, Ends, EndsPath, ends_whole, Judges};

use hatch_lists::{HatchCounts, Item};

// Where a walk stands: the next word, the next number, and what is left: parts of a path under way (its edges and its handle count), paths, and
// pattern lines.
#[derive(Clone, Copy, Debug, PartialEq, Eq)]
pub struct Place {
    pub word: usize,
    pub number: usize,
    pub parts: usize,
    pub paths: usize,
    pub lines: usize,
}

// What is left of a path under way where its handle count is next.
const LAST_PART: usize = 1;

impl Place {
    // Where the walk over a record's lists begins.
    pub fn start(c: HatchCounts) -> Place
        ensures { result ≡ start_of c }
    {
        Place {
            word: 0,
            number: 0,
            parts: 0,
            paths: c.num_paths,
            lines: c.num_pattern_lines,
        }
    }

    // Whether all is passed.
    pub fn is_finished(self) -> bool
        ensures { result ≡ finished self }
    {
        self.parts == 0 && self.paths == 0 && self.lines == 0
    }
}

// The word and the number behind all items of a walk: of a place there these two alone, since its counts of what is left are 0.
#[derive(Clone, Copy, Debug, PartialEq, Eq)]
pub struct ListEnd {
    pub word: usize,
    pub number: usize,
}

// How many numbers an item has.
// That an item is small is a clause: Item is hatch_lists', of any numbers, and a bound in it would ask more of who makes one; a type around it would be
// opened at each use.
pub fn item_size(i: Item) -> usize
    requires { Small i }
    ensures { (result ≡ item_size i) × (result ≤ 600_100) }
{
    i.before + (i.points * i.stride + (i.fit_points * 2 + i.behind))
}

// A walk over lists: their words, how many numbers there are, which are counted and not looked at, and where it stands in them.
#[derive(Clone, Copy)]
pub struct ListWalk<'a> {
    pub words: &'a [u32],
    pub numbers: usize,
    pub at: Place,
    ghost within: { Within words.now numbers at },
}

// A step is taken in where it is called, with all that it calls: as a call of its own it copies the walk in and the item and the place out, for each item.
impl<'a> ListWalk<'a> {
    // An item that ends before a place, with its numbers passed, if there are so many.
    #[inline(always)]
    fn pass(self, i: Item, to: Place) -> Option<(Item, Place)>
        requires { Small i × (to.number ≤ self.numbers) }
        ensures { result ≡ passed_to self.entry.numbers i to }
    {
        let size = item_size(i);
        if self.numbers - to.number < size {
            return None;
        }
        let to = Place {
            number: to.number + size,
            ..to
        };
        Some((i, to))
    }

    // The next part of a path under way: an edge, or its handle count, which is the last.
    #[inline(always)]
    fn part_step(self) -> Option<(Item, Place)>
        requires { 0 < self.at.parts }
        ensures { Steps self.entry.words.now self.entry.numbers self.entry.at result }
    {
        let at = self.at;
        let (i, word) = if at.parts == LAST_PART {
            list_items::handles_item(self.words, at.word)?
        } else {
            list_items::edge_item(self.words, at.word)?
        };
        let to = Place {
            word,
            parts: at.parts - 1,
            ..at
        };
        self.pass(i, to)
    }

    // The head of the next path: a polyline whole, or the count of its edges, which follow as its parts.
    #[inline(always)]
    fn path_step(self) -> Option<(Item, Place)>
        requires { (self.at.parts ≡ 0) × (0 < self.at.paths) }
        ensures { Steps self.entry.words.now self.entry.numbers self.entry.at result }
    {
        let at = self.at;
        let (head, word) = list_items::path_head(self.words, at.word)?;
        let to = Place {
            word,
            parts: head.parts,
            paths: at.paths - 1,
            ..at
        };
        self.pass(head.item, to)
    }

    // The next pattern line.
    #[inline(always)]
    fn line_step(self) -> Option<(Item, Place)>
        requires { (self.at.parts ≡ 0) × ((self.at.paths ≡ 0) × (0 < self.at.lines)) }
        ensures { Steps self.entry.words.now self.entry.numbers self.entry.at result }
    {
        let at = self.at;
        let (i, word) = list_items::line_item(self.words, at.word)?;
        let to = Place {
            word,
            lines: at.lines - 1,
            ..at
        };
        self.pass(i, to)
    }

    // The next item, whose numbers begin where the walk stands, and the place behind it; or the lists are not whole.
    #[inline(always)]
    pub fn next_item(self) -> Option<(Item, Place)>
        requires { finished self.at ≡ false }
        ensures { Steps self.entry.words.now self.entry.numbers self.entry.at result }
    {
        if 0 < self.at.parts {
            self.part_step()
        } else if 0 < self.at.paths {
            self.path_step()
        } else {
            self.line_step()
        }
    }

    // All items from here on: the word and the number behind the last of them; or the lists are not whole. An iterator of items would hold the place, and
    // its end is what is asked for: it would be no plainer.
    #[tactic(auto, using(crate::proofs::Loops::along_next))]
    fn pass_all(self) -> Option<ListEnd>
        ensures { Ends self.entry.words.now self.entry.numbers self.entry.at result }
    {
        let mut at = self.at;
        while !at.is_finished() {
            let walk = ListWalk {
                words: self.words,
                numbers: self.numbers,
                at,
            };
            (_, at) = walk.next_item()?;
        }
        Some(ListEnd {
            word: at.word,
            number: at.number,
        })
    }
}

// Where the path that begins at a word and a number ends, in lists of so many numbers; or it is not whole.
#[tactic(auto, using(crate::proofs::Judged::ends_path))]
pub fn next_path(words: &[u32], numbers: usize, word: usize, number: usize) -> Option<ListEnd>
    requires { (word ≤ length words.now) × (number ≤ numbers) }
    ensures { EndsPath words.now numbers word number result }
{
    let at = Place {
        word,
        number,
        parts: 0,
        paths: 1,
        lines: 0,
    };
    let walk = ListWalk { words, numbers, at };
    walk.pass_all()
}

// Each switch of a record is 0 or 1.
fn are_switches(c: HatchCounts) -> bool
    ensures { result ≡ switches c }
{
    c.solid_fill <= 1 && c.associative <= 1 && c.pattern_double <= 1
}

// Each count of a record is within document 01's cap.
fn are_counts(c: HatchCounts) -> bool
    ensures { result ≡ counted c }
{
    let caps = hatch_format::document_caps();
    c.num_colors <= caps.colors
        && c.num_paths <= caps.paths
        && c.num_pattern_lines <= caps.pattern_lines
        && c.num_seed_points <= caps.seed_points
}

// A record by itself, and beside lists of these lengths.
fn is_fitting(c: HatchCounts, words: usize, numbers: usize) -> bool
    ensures { result ≡ fitting c words numbers }
{
    are_switches(c) && are_counts(c) && c.words_used <= words && c.numbers_used <= numbers
}

// Whether a walk over a record's lists ended behind the last word, before the numbers of the seed points and no more.
fn is_end(end: ListEnd, c: HatchCounts) -> bool
    requires { (end.number ≤ c.numbers_used) × (c.num_seed_points ≤ document_caps.seed_points) }
    ensures { result ≡ ends_whole c (Some end) }
{
    c.words_used <= end.word && c.numbers_used - end.number == c.num_seed_points * 2
}

// Whether a record and its lists, of which that of numbers has so many, are whole.
pub fn is_whole(c: HatchCounts, words: &[u32], numbers: usize) -> bool
    ensures { Judges c words.now numbers result }
{
    if !is_fitting(c, words.len(), numbers) {
        return false;
    }
    let walk = ListWalk {
        words: &words[..c.words_used],
        numbers: c.numbers_used,
        at: Place::start(c),
    };
    match walk.pass_all() {
        Some(end) => is_end(end, c),
        None => false,
    }
}
