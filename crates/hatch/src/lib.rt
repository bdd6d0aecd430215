// The hatch calls: src/entities/hatch.rs of dwg-rs; section 20.4.75 of the specification.
// The walks measure first and then fill, so that no list is written while a later field can still fail.
// specs/ promises of each call, on any input, its record, both places and every entry of both lists, as hatch_format defines them.
#![tactic(auto)]

ghost use Rattle.std.specs.Prelude.{◌≡◌, length};
ghost use Rattle.hatch_format.specs.Call.{none};
ghost use Rattle.hatch.specs.Calls.{Reads, call_of, strings_of, as_lengths, most};

use bitcursor::values::Number;
use hatch_body::Room;
use hatch_format::Color;
use hatch_record::{HatchRead, LengthsRead};

pub mod calls;
pub mod seeds;

pub use calls::Strings;

// A hatch body without a reader, from any bytes at any start bit, of any release number; its doubles as f64 or as their 64 bits. Bytes, start and release
// stay arguments, as the C calls have them: a struct of them would be made in each call and taken apart in `calls::call`.
pub fn decode<N: Number, C: Color>(
    main: &[u8],
    start: usize,
    release: u64,
    numbers: &mut [N],
    words: &mut [u32],
) -> HatchRead<N, C>
    ensures { Reads N.of_bits C.of_bits (call_of release main.now start none (length words.old) (length numbers.old)) result
        numbers.old numbers.new words.old words.new }
{
    decode_with_strings(main, start, None, release, numbers, words)
}

// With a string reader where one is lent: over any bytes, from any start bit to any end bit.
pub fn decode_with_strings<N: Number, C: Color>(
    main: &[u8],
    start: usize,
    strings: Option<Strings>,
    release: u64,
    numbers: &mut [N],
    words: &mut [u32],
) -> HatchRead<N, C>
    ensures { Reads N.of_bits C.of_bits (call_of release main.now start (strings_of strings.entry) (length words.old) (length numbers.old))
        result numbers.old numbers.new words.old words.new }
{
    let read = calls::read_with_strings(main, start, strings, release, numbers, words);
    hatch_record::answer(main, read)
}

// Longer than any list is: what a measuring call takes both lists to be.
const MOST: usize = usize::MAX;

const LONGEST: Room = Room {
    words: MOST,
    numbers: MOST,
};

// The lengths that the lists must have for a hatch without a reader, or its refusal: a host measures, lends so much and reads.
pub fn measure(main: &[u8], start: usize, release: u64) -> LengthsRead
    ensures { result ≡ as_lengths (call_of release main.now start none most most) }
{
    measure_with_strings(main, start, None, release)
}

// The same with a string reader where one is lent.
pub fn measure_with_strings(
    main: &[u8],
    start: usize,
    strings: Option<Strings>,
    release: u64,
) -> LengthsRead
    ensures { result ≡ as_lengths (call_of release main.now start (strings_of strings.entry) most most) }
{
    let read = calls::call::<u64>(main, start, strings, release, LONGEST, &mut [], &mut []);
    hatch_record::lengths_of(read)
}
