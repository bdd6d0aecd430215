// A hatch call on any input, before a record is made of it: src/entities/hatch.rs of dwg-rs; section 20.4.75 of the specification.
// The refusals come in document 01's order: 9, 10, a string start past its payload, the fields, 11.
// specs/ promise the body's parts or the refusal, and the lists afterwards, as hatch_format's `call_on` reads them.
#![tactic(auto)]

ghost use Rattle.std.specs.Prelude.{◌≡◌};
ghost use Rattle.bitcursor.specs.Answers.{passing};
ghost use Rattle.text.specs.Answers.{payloads_to};
ghost use Rattle.hatch_format.specs.Caps.{document_caps, NowhereAbove};
ghost use Rattle.hatch_format.specs.HandleRule.{in_payload};
ghost use Rattle.hatch_format.specs.Hatch.{hatch};
ghost use Rattle.hatch_format.specs.Call.{room_for, reader_start, call_on};
ghost use Rattle.hatch_points.specs.Lists.{lists};
ghost use Rattle.hatch_call.specs.Calls.{CallIs};

use bitcursor::values::Number;
use bitcursor::{Payload, Places, Refusal, Refused};
use hatch_body::{BodyRead, Room};
use hatch_format::Caps;
use hatch_paths::Rules;
use text::Payloads;
use text::version::Version;

// A body of a known release.
fn read_body<N: Number>(
    payloads: &Payloads,
    at: Places,
    rules: Rules,
    room: Room,
    numbers: &mut [N],
    words: &mut [u32],
) -> BodyRead
    ensures { CallIs N.of_bits payloads.now.main (room_for room.words room.numbers
        ((hatch rules.caps in_payload rules.version).read payloads.now at))
        (lists numbers.old words.old) (lists numbers.new words.new) result }
{
    // Of the main payload colours are read again, so that it is promised to be within the limit, as a size is.
    let _ = payloads.main.size();
    let (front, p) = hatch_front::read_front(payloads, at, rules.version, rules.caps)?;
    hatch_body::fill_rest(&payloads.main, p, rules, front, room, numbers, words)
}

// The places with the string reader at its start, or why it stands nowhere. By hand, and not by `after_string`: that takes a value with the place, and
// a start has none.
fn standing(strings: &Payload, at: Places) -> Result<Places, Refused<Places>>
    ensures { passing result ≡ reader_start strings.now at }
{
    let main = at.main;
    let place = string_start::start_in_bytes(strings.bytes().len(), at.string).map_err(
        |e| Refused {
            refusal: e.refusal,
            place: Places {
                main,
                string: e.place,
            },
        },
    )?;
    Ok(Places {
        main,
        string: place,
    })
}

// A call on any input: refusal 9, then 10 of either payload, then a string start past its payload, then the body, read with the
// reader at its start. A string reader is lent if its end bit is said. Bytes, and no Payloads: here each is found to be within the limit, behind
// refusal 9.
pub fn read_call<N: Number>(
    main: &[u8],
    string: &[u8],
    at: Places,
    reader: Option<usize>,
    release: u64,
    caps: Caps,
    room: Room,
    numbers: &mut [N],
    words: &mut [u32],
) -> BodyRead
    requires { NowhereAbove caps document_caps }
    ensures { CallIs N.of_bits main.now (call_on caps in_payload room.words room.numbers
        (payloads_to main.now string.now reader) at release)
        (lists numbers.old words.old) (lists numbers.new words.new) result }
{
    let too_long = Refused {
        refusal: Refusal::PayloadTooLong,
        place: at,
    };
    let version = Version::known_at(release, at)?;
    let main = Payload::new(main).ok_or(too_long)?;
    let string = Payload::new(string).ok_or(too_long)?;
    let at = standing(&string, at)?;
    let payloads = Payloads {
        main,
        string,
        reader,
    };
    read_body(&payloads, at, Rules { caps, version }, room, numbers, words)
}
