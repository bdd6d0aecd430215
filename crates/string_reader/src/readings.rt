// One text read by a string reader made for it, with every question to the reader: a caller that keeps no reader runs it so, from place to
// place.
ghost use Rattle.std.specs.Prelude.{◌≡◌};
ghost use Rattle.string_reader.specs.Readers.{next_text};

use crate::StringReader;
use bitcursor::Refusal;
use text::Text;

// Whether the reader was made, its text, and what it says afterwards.
#[derive(Clone, Copy, Debug, PartialEq, Eq)]
pub struct NextText {
    pub start: Result<(), Refusal>,
    pub text: Result<Text, Refusal>,
    pub exhausted: bool,
    pub position: usize,
    pub remaining: usize,
}

// Makes a reader, reads a text by it, and asks it. Where no reader is made, one stands at the refusal's place.
pub fn next_text(payload: &[u8], start_bit: usize, end_bit: usize) -> NextText
    ensures { result ≡ next_text payload.now start_bit end_bit }
{
    let (start, mut reader) = match StringReader::new(payload, start_bit, end_bit) {
        Ok(reader) => (Ok(()), reader),
        Err(refused) => (
            Err(refused.refusal),
            StringReader {
                payload,
                place: refused.place,
                end_bit,
            },
        ),
    };
    let text = reader.read_tv();
    NextText {
        start,
        text,
        exhausted: reader.is_exhausted(),
        position: reader.position_bits(),
        remaining: reader.remaining_bits(),
    }
}
