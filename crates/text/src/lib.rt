// Text, inline and from a lent string reader: src/version.rs, src/tables/mod.rs, src/tables/modern.rs and src/string_stream.rs of
// dwg-rs; the specification's text codes (TV) and, for the reader, its string stream.
// specs/ promises each text's position, unit count and padding, or refusal 1, 6 or 7 at document 01's place, for every payload and place.
#![tactic(auto)]

ghost use Rattle.std.specs.Prelude.{◌≡◌};
ghost use Rattle.bitcursor.specs.Answers.{outcome, limited};
ghost use Rattle.text.specs.Releases.{version_of};
ghost use Rattle.text.specs.Answers.{source_number, released, inline_text, reader_text};

use bitcursor::{Reading, payload};
use version::Version;

mod padding;
mod payloads;
mod utf16;
pub mod version;
pub mod within;

pub use payloads::Payloads;

// Which payload a text lies in; an absent gradient's name lies in none. Absent is a source and no None around the text: document 01's record has a
// name, of source 0, where there is no gradient.
#[derive(Clone, Copy, Debug, PartialEq, Eq)]
pub enum Source {
    Absent,
    Main,
    String,
}

impl From<Source> for u8 {
    ghost from_gives = { λ source number. number ≡ source_number source };

    fn from(source: Source) -> u8 {
        match source {
            Source::Absent => 0,
            Source::Main => 1,
            Source::String => 2,
        }
    }
}

// Document 01's text: the payload, the bits of a unit, the bit position of the first unit, and how many units there are once a
// closing zero is dropped; and document 02's: whether one was dropped. That stands beside the width, where it takes no room. Characters
// are left to the host. A position in bits and no slice: a text starts at any bit.
#[derive(Clone, Copy, Debug, PartialEq, Eq)]
pub struct Text {
    pub source: Source,
    pub width: u8,
    pub padded: bool,
    pub position: usize,
    pub count: usize,
}

// What stands for a text where there is none: on a refusal, and for the name of a gradient that a hatch has not.
pub const NO_TEXT: Text = Text {
    source: Source::Absent,
    width: 0,
    padded: false,
    position: 0,
    count: 0,
};

// Inline text of any release, from any bytes at any place: refusal 9, then 10, then the text's own.
#[tactic(auto, using(bitcursor::proofs::Steps::limit_within, bitcursor::proofs::Steps::limit_above), unfolding(crate::specs::Answers::released))]
pub fn read_tv(s: &[u8], at: usize, release: u64) -> Reading<Text>
    ensures { outcome result ≡ released (λ v. limited (inline_text v)) (version_of release) s.now at }
{
    let version = Version::known_at(release, at)?;
    let s = &payload(s, at)?;
    within::read_tv(s, at, version)
}

// Text from a string reader over any bytes, at any place and with any end bit.
#[tactic(auto, using(bitcursor::proofs::Steps::limit_within, bitcursor::proofs::Steps::limit_above))]
pub fn read_string_tv(s: &[u8], at: usize, end: usize) -> Reading<Text>
    ensures { outcome result ≡ limited (reader_text end) s.now at }
{
    let s = &payload(s, at)?;
    within::read_string_tv(s, at, end)
}
