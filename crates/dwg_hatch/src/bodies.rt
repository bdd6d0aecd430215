// The hatch calls of the boundary; thin over crate hatch.
// specs/HatchCalls promises that each answer is the call's as numbers; the lists are what the call leaves there.
// Here and in lib.rt and moves.rt doubles and their bits have a function each, and lists and numbers stand side by side: a C name has no type arguments.
ghost use Rattle.std.specs.Prelude.{◌≡◌, length};
ghost use Rattle.hatch_format.specs.Call.{none, lent};
ghost use Rattle.hatch.specs.Calls.{call_of, as_lengths, most};
ghost use Rattle.boundary.specs.HatchBoundary.{lengths_answer};
ghost use Rattle.dwg_hatch.specs.HatchCalls.{Decodes, DecodesBits};

use boundary::bodies::{BodyAnswer, BodyBitsAnswer, LengthsAnswer};
use boundary::hatches;
use hatch::{Strings, calls};

// The hatch body at a bit of the main payload, texts inline, doubles as f64.
#[unsafe(no_mangle)]
pub extern "C" fn dwg_hatch_decode(
    main: &[u8],
    start: usize,
    release: u64,
    numbers: &mut [f64],
    words: &mut [u32],
) -> BodyAnswer
    ensures { Decodes (call_of release main.now start none (length words.old) (length numbers.old)) result
        numbers.old numbers.new words.old words.new }
{
    let read = calls::read(main, start, release, numbers, words);
    hatches::answer(main, &read)
}

// The same with each double as its 64 bits.
#[unsafe(no_mangle)]
pub extern "C" fn dwg_hatch_decode_bits(
    main: &[u8],
    start: usize,
    release: u64,
    bits: &mut [u64],
    words: &mut [u32],
) -> BodyBitsAnswer
    ensures { DecodesBits (call_of release main.now start none (length words.old) (length bits.old)) result
        bits.old bits.new words.old words.new }
{
    let read = calls::read(main, start, release, bits, words);
    hatches::answer_bits(main, &read)
}

// The hatch body with a string reader that stands at `string_start` of the string payload and ends at the bit `string_end`.
#[unsafe(no_mangle)]
pub extern "C" fn dwg_hatch_decode_with_strings(
    main: &[u8],
    start: usize,
    string: &[u8],
    string_start: usize,
    string_end: usize,
    release: u64,
    numbers: &mut [f64],
    words: &mut [u32],
) -> BodyAnswer
    ensures { Decodes (call_of release main.now start (lent string.now string_start string_end) (length words.old)
        (length numbers.old)) result numbers.old numbers.new words.old words.new }
{
    let strings = Strings {
        bytes: string,
        start: string_start,
        end: string_end,
    };
    let read = calls::read_with_strings(main, start, Some(strings), release, numbers, words);
    hatches::answer(main, &read)
}

// The same with each double as its 64 bits.
#[unsafe(no_mangle)]
pub extern "C" fn dwg_hatch_decode_with_strings_bits(
    main: &[u8],
    start: usize,
    string: &[u8],
    string_start: usize,
    string_end: usize,
    release: u64,
    bits: &mut [u64],
    words: &mut [u32],
) -> BodyBitsAnswer
    ensures { DecodesBits (call_of release main.now start (lent string.now string_start string_end)
        (length words.old) (length bits.old)) result bits.old bits.new words.old words.new }
{
    let strings = Strings {
        bytes: string,
        start: string_start,
        end: string_end,
    };
    let read = calls::read_with_strings(main, start, Some(strings), release, bits, words);
    hatches::answer_bits(main, &read)
}

// The lengths that the lists must have for the hatch body, whatever is lent.
#[unsafe(no_mangle)]
pub extern "C" fn dwg_hatch_measure(main: &[u8], start: usize, release: u64) -> LengthsAnswer
    ensures { result ≡ lengths_answer (as_lengths (call_of release main.now start none most most)) }
{
    hatch::measure(main, start, release).into()
}

// The same with a string reader.
#[unsafe(no_mangle)]
pub extern "C" fn dwg_hatch_measure_with_strings(
    main: &[u8],
    start: usize,
    string: &[u8],
    string_start: usize,
    string_end: usize,
    release: u64,
) -> LengthsAnswer
    ensures { result ≡ lengths_answer (as_lengths (call_of release main.now start
        (lent string.now string_start string_end) most most)) }
{
    let strings = Strings {
        bytes: string,
        start: string_start,
        end: string_end,
    };
    hatch::measure_with_strings(main, start, Some(strings), release).into()
}
