// The text readers of a payload, which is within document 01's limit.
ghost use Rattle.std.specs.Prelude.{◌≡◌, ◌^◌, ◌<◌};
ghost use Rattle.bitcursor.specs.Answers.{outcome};
ghost use Rattle.text.specs.Units.{units};
ghost use Rattle.text.specs.Texts.{narrow, wide, TV};
ghost use Rattle.text.specs.Answers.{placed, units_text, inline_text, reader_text};
ghost use Rattle.text.specs.Fields.{width_by};
ghost use Rattle.text.specs.TextField.{TV_field};

use crate::version::Version;
use crate::{Payloads, Source, Text, padding, utf16};
use bitcursor::{Payload, Places, Reading, Refusal, refuse};

// The text of n 8-bit units at `at`: one comparison, however long it is.
fn narrow_units(s: &Payload, at: usize, n: usize) -> Reading<Text>
    requires { n < 2 ^ 16 }
    ensures { outcome result ≡ units_text Source.Main narrow at ((units 1 n).read s.now at) }
{
    let p = bitcursor::within::skip_bytes(s, at, n)?;
    let padded = padding::is_padded(s, at, 1, n);
    let count = n - padded as usize;
    let narrow = Text {
        source: Source::Main,
        width: 8,
        position: at,
        count,
        padded,
    };
    Ok((narrow, p))
}

// The text of n 16-bit units at `at`: one pass over them; refusal 7 after them all.
fn wide_units(s: &Payload, at: usize, n: usize, source: Source) -> Reading<Text>
    requires { n < 2 ^ 16 }
    ensures { outcome result ≡ units_text source wide at ((units 2 n).read s.now at) }
{
    let p = bitcursor::within::skip_bytes(s, at, 2 * n)?;
    let padded = padding::is_padded(s, at, 2, n);
    let count = n - padded as usize;
    if !utf16::is_utf16(s, at, count) {
        return refuse(Refusal::NotUtf16, p);
    }
    let wide = Text {
        source,
        width: 16,
        position: at,
        count,
        padded,
    };
    Ok((wide, p))
}

// Inline text (TV): a length, and units of two bytes or of one.
pub fn read_tv_by(s: &Payload, at: usize, two_bytes: bool) -> Reading<Text>
    ensures { outcome result ≡ placed Source.Main (width_by two_bytes) at ((TV (width_by two_bytes)).read s.now at) }
{
    let (n, p) = bitcursor::within::read_bs_u(s, at)?;
    if two_bytes {
        return wide_units(s, p, n as usize, Source::Main);
    }
    narrow_units(s, p, n as usize)
}

// Inline text of a release: units of one byte before release 4, of two from it.
#[tactic(auto, unfolding(crate::specs::Answers::inline_text))]
pub fn read_tv(s: &Payload, at: usize, v: Version) -> Reading<Text>
    ensures { outcome result ≡ inline_text v s.now at }
{
    read_tv_by(s, at, v.is_from(Version::R2007))
}

// Text from a string reader that stands at `at` and ends at the bit `end`.
pub fn read_string_tv(s: &Payload, at: usize, end: usize) -> Reading<Text>
    ensures { outcome result ≡ reader_text end s.now at }
{
    if end <= at {
        let empty = Text {
            source: Source::String,
            width: 16,
            position: at,
            count: 0,
            padded: false,
        };
        return Ok((empty, at));
    }
    let (n, p) = bitcursor::within::read_bs_u(s, at)?;
    // A size is at most the limit, so that the end of the units does not overflow.
    let _ = s.size();
    if n == 0 {
        return wide_units(s, p, 0, Source::String);
    }
    if end < p + 16 * (n as usize) {
        return refuse(Refusal::TextPastEnd, p);
    }
    wide_units(s, p, n as usize, Source::String)
}

// A text field (`read_tv_field`): the reader's text where one is lent, by its end bit; inline text where none is.
pub fn read_tv_field(payloads: &Payloads, at: Places, v: Version) -> Reading<Text, Places>
    ensures { outcome result ≡ (TV_field v).read payloads.now at }
{
    match payloads.reader {
        Some(end) => at.after_string(read_string_tv(&payloads.string, at.string, end)),
        None => at.after_main(read_tv(&payloads.main, at.main, v)),
    }
}
