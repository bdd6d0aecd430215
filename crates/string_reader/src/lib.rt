// A string reader that keeps its payload, from text to text: src/string_stream.rs of dwg-rs; section 19.1 of the ODA's specification.
// Each function takes the reader apart and calls one by value with the payload and the numbers.
// specs/ promises, for every reader and every payload: the answer of the call by value, and the place where that call ends.
#![tactic(auto)]

ghost use Rattle.std.specs.Prelude.{◌≡◌, ◌-◌, leb};
ghost use Rattle.bitcursor.specs.Answers.{passing};
ghost use Rattle.string_reader.specs.Readers.{start_at, Opens, ReadsText};

use bitcursor::{Passing, Refusal, Refused};
use text::Text;

pub mod readings;

// The payload, the bit at which the next text starts, and the end bit. Any two numbers are allowed, past the payload too.
// The payload is bytes and no `Payload`: every value of the public fields is promised an answer, and `next_text` has one above the limit.
#[derive(Clone, Copy, Debug, PartialEq, Eq)]
pub struct StringReader<'a> {
    pub payload: &'a [u8],
    pub place: usize,
    pub end_bit: usize,
}

// Whether a reader may start at a bit: refusal 10 there for a payload above the limit, and 1 at the payload's end for a start past it.
#[tactic(auto, using(bitcursor::proofs::Steps::limit_within, bitcursor::proofs::Steps::limit_above))]
pub fn start_at(payload: &[u8], start_bit: usize) -> Passing
    ensures { passing result ≡ start_at payload.now start_bit }
{
    let payload = bitcursor::payload(payload, start_bit)?;
    string_start::start_in_bytes(payload.bytes().len(), start_bit)
}

impl<'a> StringReader<'a> {
    // A reader over a payload, from a start bit to an end bit.
    pub fn new(
        payload: &'a [u8],
        start_bit: usize,
        end_bit: usize,
    ) -> Result<StringReader<'a>, Refused>
        ensures { Opens payload.entry start_bit end_bit result }
    {
        let place = start_at(payload, start_bit)?;
        Ok(StringReader {
            payload,
            place,
            end_bit,
        })
    }

    // Whether the place is at the end bit or past it: a text read there is empty.
    pub fn is_exhausted(self) -> bool
        ensures { result ≡ leb self.entry.end_bit self.entry.place }
    {
        self.end_bit <= self.place
    }

    // The place at which the next text starts.
    pub fn position_bits(self) -> usize
        ensures { result ≡ self.entry.place }
    {
        self.place
    }

    // How many bits are left to the end bit; 0 where there are none.
    pub fn remaining_bits(self) -> usize
        ensures { result ≡ self.entry.end_bit - self.entry.place }
    {
        self.end_bit.saturating_sub(self.place)
    }

    // The next text, and the reader moved on; on a refusal it stands at the refusal's place.
    pub fn read_tv(&mut self) -> Result<Text, Refusal>
        ensures { ReadsText self.old result self.new }
    {
        match text::read_string_tv(self.payload, self.place, self.end_bit) {
            Ok((text, place)) => {
                self.place = place;
                Ok(text)
            }
            Err(refused) => {
                self.place = refused.place;
                Err(refused.refusal)
            }
        }
    }
}
