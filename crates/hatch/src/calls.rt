// The calls before a record is made of them: a body's parts, with the lists filled, by document 01's caps.
ghost use Rattle.std.specs.Prelude.{length};
ghost use Rattle.hatch_format.specs.Call.{none};
ghost use Rattle.hatch_points.specs.Lists.{lists};
ghost use Rattle.hatch_call.specs.Calls.{CallIs};
ghost use Rattle.hatch.specs.Calls.{numbers_as, ReadsParts, call_of, strings_of};

use bitcursor::Places;
use bitcursor::values::Number;
use hatch_body::{BodyRead, Room};

// A lent string reader: its payload, the bit at which it stands and the bit at which it ends.
#[derive(Clone, Copy, Debug, PartialEq, Eq)]
pub struct Strings<'a> {
    pub bytes: &'a [u8],
    pub start: usize,
    pub end: usize,
}

// The call over lists that are taken to be so long. Without a reader the string payload is empty, and its place is 0.
pub(crate) fn call<N: Number>(
    main: &[u8],
    start: usize,
    strings: Option<Strings>,
    release: u64,
    room: Room,
    numbers: &mut [N],
    words: &mut [u32],
) -> BodyRead
    ensures { CallIs N.of_bits main.now (call_of release main.now start (strings_of strings.entry) room.words room.numbers)
        (lists numbers.old words.old) (lists numbers.new words.new) result }
{
    let (string, string_start, reader) = match strings {
        Some(s) => (s.bytes, s.start, Some(s.end)),
        None => (&[] as &[u8], 0, None),
    };
    let at = Places {
        main: start,
        string: string_start,
    };
    let caps = hatch_format::document_caps();
    hatch_call::read_call(
        main, string, at, reader, release, caps, room, numbers, words,
    )
}

// A hatch body without a reader; its numbers as doubles or as their 64 bits.
pub fn read<N: Number>(
    main: &[u8],
    start: usize,
    release: u64,
    numbers: &mut [N],
    words: &mut [u32],
) -> BodyRead
    ensures { ReadsParts (numbers_as N.of_bits) main.now (call_of release main.now start none (length words.old)
        (length numbers.old)) result numbers.old numbers.new words.old words.new }
{
    read_with_strings(main, start, None, release, numbers, words)
}

// With a string reader where one is lent.
pub fn read_with_strings<N: Number>(
    main: &[u8],
    start: usize,
    strings: Option<Strings>,
    release: u64,
    numbers: &mut [N],
    words: &mut [u32],
) -> BodyRead
    ensures { ReadsParts (numbers_as N.of_bits) main.now (call_of release main.now start (strings_of strings.entry)
        (length words.old) (length numbers.old)) result numbers.old numbers.new words.old words.new }
{
    let room = Room {
        words: words.len(),
        numbers: numbers.len(),
    };
    call(main, start, strings, release, room, numbers, words)
}
