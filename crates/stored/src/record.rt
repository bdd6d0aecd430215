// The records of the packed list. The items of a record, each eight bytes:
//   0  the line of data/list           1  the kind of request           2  the release           3  the start
//   4 to 7  further numbers of the request: of a DD the default; of a text by a reader the end bit; of a hatch the string start and end
//           and the lent lengths, of words and of numbers
//   8  the payload's length in bytes   9  the strings' length in bytes
// then the bytes of both, each padded to whole items, and the answer: refusal or 0, place, second place, how many values, the values.
// Before each record stands the number of its items.
use crate::items::item;
use crate::kinds::Kind;

// The first byte of the payload.
const HEAD: usize = 80;

// A record that has the payload that it says, in its parts; `number` is item 1, of which `kind` is the call, and `more` is item 4. Where it
// has fewer strings than it says, it has none, and no answer.
#[derive(Clone, Copy, Debug, PartialEq, Eq)]
pub struct Record<'a> {
    pub line: u64,
    pub number: u64,
    pub kind: Kind,
    pub release: u64,
    pub start: usize,
    pub more: u64,
    pub string_end: usize,
    pub lent_words: usize,
    pub lent_numbers: usize,
    pub payload: &'a [u8],
    pub strings: Option<&'a [u8]>,
    pub answer: &'a [u8],
}

impl<'a> Record<'a> {
    // The record that these bytes are, if they are one of so many items.
    pub fn parse(bytes: &'a [u8], items: u64) -> Option<Record<'a>> {
        if (bytes.len() / 8) as u64 != items || bytes.len() < HEAD {
            return None;
        }
        let (payload, rest) = padded(&bytes[HEAD..], item(bytes, 64) as usize)?;
        let (strings, answer) = match padded(rest, item(bytes, 72) as usize) {
            Some((strings, answer)) => (Some(strings), answer),
            None => (None, &rest[rest.len()..]),
        };
        let number = item(bytes, 8);
        Some(Record {
            line: item(bytes, 0),
            number,
            kind: Kind::from(number),
            release: item(bytes, 16),
            start: item(bytes, 24) as usize,
            more: item(bytes, 32),
            string_end: item(bytes, 40) as usize,
            lent_words: item(bytes, 48) as usize,
            lent_numbers: item(bytes, 56) as usize,
            payload,
            strings,
            answer,
        })
    }
}

// The first `size` bytes, and what stands behind them and the bytes that pad them to whole items, if all are there.
fn padded(bytes: &[u8], size: usize) -> Option<(&[u8], &[u8])> {
    let part = bytes.get(..size)?;
    let rest = bytes.get(size.next_multiple_of(8)..)?;
    Some((part, rest))
}
