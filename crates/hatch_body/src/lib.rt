// A hatch body's parts: what follows its front measured and, where both lists are long enough, filled. src/entities/hatch.rs of dwg-rs.
// Section 20.4.75 of the specification, from the solid fill bit on; refusal 11 is document 01's.
// specs/ promise the parts or the refusal, and the lists afterwards, as hatch_format's `rest` reads them.
#![tactic(auto)]

ghost use Rattle.std.specs.Prelude.{◌≡◌, length};
ghost use Rattle.bitcursor.specs.Answers.{outcome, value_as};
ghost use Rattle.hatch_format.specs.HandleRule.{in_payload};
ghost use Rattle.hatch_format.specs.Patterns.{rest};
ghost use Rattle.hatch_points.specs.Gathered.{gathered};
ghost use Rattle.hatch_points.specs.Lists.{lists, Stored};
ghost use Rattle.hatch_rest.specs.Rests.{no_sizes, rest_entries, rest_walk};
ghost use Rattle.hatch_body.specs.Parts.{none_lent, long_enough, rest_read, rest_lists};

use bitcursor::values::Number;
use bitcursor::{Payload, Places, Reading, Refusal, Refused, refuse};
use hatch_front::Front;
use hatch_paths::Rules;
use hatch_points::lists::{Lent, Sizes};
use hatch_rest::rests;
use hatch_rest::rests::Rest;

// What a readable body gives but for its list entries: its parts, the lengths used of the lists and its final places.
#[derive(Clone, Copy, Debug, PartialEq, Eq)]
pub struct Parts {
    pub front: Front,
    pub rest: Rest,
    pub used: Sizes,
    pub places: Places,
}

// The parts, or why there are none.
pub type BodyRead = Result<Parts, Refused<Places>>;

// The rest, walked over no lists: that only measures.
fn measure_rest(s: &Payload, at: usize, rules: Rules) -> Reading<(Rest, Sizes)>
    ensures { outcome result ≡ value_as rest_walk ((rest rules.caps in_payload rules.version).read s.now at) }
{
    let mut none = Lent::<u64> {
        numbers: &mut [],
        words: &mut [],
    };
    rests::decode_rest(s, at, rules, &mut none)
}

// Whether both lists are empty.
fn none_lent<N: Number>(numbers: &[N], words: &[u32]) -> bool
    ensures { result ≡ none_lent (length numbers.now) (length words.now) }
{
    numbers.is_empty() && words.is_empty()
}

// Fills the lists with the rest. Empty lists take nothing, so a call that is lent none, as a measuring call is, does not walk again. Two lists from here
// up, as the C calls lend them: a Lent is made here, once, where both walks of a body meet.
fn fill_lists<N: Number>(s: &Payload, at: usize, rules: Rules, numbers: &mut [N], words: &mut [u32])
    ensures { Stored N.of_bits (gathered rest_entries ((rest rules.caps in_payload rules.version).read s.now at))
        (lists numbers.old words.old) no_sizes (lists numbers.new words.new) }
{
    if none_lent(numbers, words) {
        return;
    }
    let _ = rests::decode_rest(s, at, rules, &mut Lent { numbers, words });
}

// How long the two lists of a caller are, or are taken to be where a call only measures.
#[derive(Clone, Copy, Debug, PartialEq, Eq)]
pub struct Room {
    pub words: usize,
    pub numbers: usize,
}

// Whether both lists are long enough for what the walk used.
fn long_enough(room: Room, used: Sizes) -> bool
    ensures { result ≡ long_enough room.words room.numbers used }
{
    used.words <= room.words && used.numbers <= room.numbers
}

// What follows a front: measured, and filled only where both lists are long enough.
pub fn fill_rest<N: Number>(
    main: &Payload,
    p: Places,
    rules: Rules,
    front: Front,
    room: Room,
    numbers: &mut [N],
    words: &mut [u32],
) -> BodyRead
    ensures { (result ≡ rest_read front room.words room.numbers p ((rest rules.caps in_payload rules.version).read main.now p.main)) ×
        (lists numbers.new words.new ≡ rest_lists N.of_bits
        (lists numbers.old words.old) room.words room.numbers
        ((rest rules.caps in_payload rules.version).read main.now p.main)) }
{
    let measured = measure_rest(main, p.main, rules);
    let ((rest, used), places) = p.after_main(measured)?;
    if !long_enough(room, used) {
        return refuse(Refusal::ListTooShort, places);
    }
    fill_lists(main, p.main, rules, numbers, words);
    Ok(Parts {
        front,
        rest,
        used,
        places,
    })
}
