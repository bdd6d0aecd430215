// A hatch as numbers: what crosses the boundary in place of a Result.
ghost use Rattle.std.specs.Prelude.{◌≡◌};
ghost use Rattle.hatch_format.specs.Record.{hatch_as, zero_record, double, color_as_doubles};
ghost use Rattle.hatch_body.specs.Parts.{Readable};
ghost use Rattle.hatch_record.specs.Records.{answer_in};
ghost use Rattle.boundary.specs.HatchBoundary.{text_fields, gradient_fields, gradient_bits, body_fields, body_with, bits_with};
ghost use Rattle.boundary.specs.HatchBoundary.{body_answer, body_bits, lengths_answer};

use crate::bodies::{
    BodyAnswer, BodyBitsAnswer, BodyFields, GradientBits, GradientFields, LengthsAnswer, TextFields,
};
use bitcursor::Places;
use bitcursor::values::Number;
use hatch_body::BodyRead;
use hatch_format::{
    Color, GradientColor, GradientColorBits, GradientFill, GradientFillBits, Hatch, HatchBits,
    Vec3D,
};
use hatch_front::colors;
use hatch_record::{HatchRead, LengthsRead};
use text::{NO_TEXT, Text};

impl From<Text> for TextFields {
    ghost from_gives = { λ text fields. fields ≡ text_fields text };

    fn from(text: Text) -> TextFields {
        TextFields {
            source: text.source.into(),
            width: text.width,
            padded: text.padded,
            position: text.position,
            count: text.count,
        }
    }
}

// Here and below what is made of doubles and what is made of their bits are twins, since the structs that cross to C are two (bodies.rt says why).
impl From<GradientFill> for GradientFields {
    ghost from_gives = { λ fill fields. fields ≡ gradient_fields fill };

    fn from(fill: GradientFill) -> GradientFields {
        let colors = fill.colors;
        GradientFields {
            present: fill.present,
            angle: fill.angle,
            shift: fill.shift,
            is_single_color: fill.is_single_color,
            tint: fill.tint,
            num_colors: fill.num_colors,
            colors,
            name: fill.name.into(),
        }
    }
}

impl From<GradientFillBits> for GradientBits {
    ghost from_gives = { λ fill fields. fields ≡ gradient_bits fill };

    fn from(fill: GradientFillBits) -> GradientBits {
        let colors = fill.colors;
        GradientBits {
            present: fill.present,
            angle: fill.angle,
            shift: fill.shift,
            is_single_color: fill.is_single_color,
            tint: fill.tint,
            num_colors: fill.num_colors,
            colors,
            name: fill.name.into(),
        }
    }
}

// The fields that are no doubles.
impl<N: Copy, C: Copy> From<Hatch<N, C>> for BodyFields {
    ghost from_gives = { λ h fields. fields ≡ body_fields h };

    fn from(h: Hatch<N, C>) -> BodyFields {
        BodyFields {
            pattern_name: h.pattern_name.into(),
            solid_fill: h.solid_fill,
            associative: h.associative,
            pattern_double: h.pattern_double,
            pattern_style: h.pattern_style,
            pattern_type: h.pattern_type,
            num_paths: h.num_paths,
            num_pattern_lines: h.num_pattern_lines,
            num_seed_points: h.num_seed_points,
            words_used: h.words_used,
            numbers_used: h.numbers_used,
        }
    }
}

// What stands for a hatch on a refusal: zero but for the places.
fn zero_hatch<N: Number, C: Color>(places: Places) -> Hatch<N, C>
    ensures { result ≡ hatch_as N.of_bits C.of_bits (zero_record places) }
{
    let zero = N::from_bits(0);
    Hatch {
        gradient: GradientFill {
            present: false,
            angle: zero,
            shift: zero,
            is_single_color: 0,
            tint: zero,
            num_colors: 0,
            colors: colors::zero_colors(),
            name: NO_TEXT,
        },
        elevation: zero,
        extrusion: Vec3D {
            x: zero,
            y: zero,
            z: zero,
        },
        pattern_name: NO_TEXT,
        solid_fill: false,
        associative: false,
        num_paths: 0,
        pattern_style: 0,
        pattern_type: 0,
        pattern_angle: zero,
        pattern_scale: zero,
        pattern_double: false,
        num_pattern_lines: 0,
        pixel_size: zero,
        num_seed_points: 0,
        words_used: 0,
        numbers_used: 0,
        places,
    }
}

impl BodyAnswer {
    fn new(refusal: u64, h: Hatch) -> BodyAnswer
        ensures { result ≡ body_with refusal h }
    {
        let extrusion = h.extrusion;
        let places = h.places;
        BodyAnswer {
            refusal,
            place: places.main,
            string_place: places.string,
            gradient: h.gradient.into(),
            elevation: h.elevation,
            extrusion_x: extrusion.x,
            extrusion_y: extrusion.y,
            extrusion_z: extrusion.z,
            pattern_angle: h.pattern_angle,
            pattern_scale: h.pattern_scale,
            pixel_size: h.pixel_size,
            fields: h.into(),
        }
    }
}

impl From<HatchRead> for BodyAnswer {
    ghost from_gives = { λ read answer. answer ≡ body_answer read };

    fn from(read: HatchRead) -> BodyAnswer {
        match read {
            Ok(h) => BodyAnswer::new(0, h),
            Err(e) => BodyAnswer::new(u64::from(u8::from(e.refusal)), zero_hatch(e.place)),
        }
    }
}

impl BodyBitsAnswer {
    fn new(refusal: u64, h: HatchBits) -> BodyBitsAnswer
        ensures { result ≡ bits_with refusal h }
    {
        let extrusion = h.extrusion;
        let places = h.places;
        BodyBitsAnswer {
            refusal,
            place: places.main,
            string_place: places.string,
            gradient: h.gradient.into(),
            elevation: h.elevation,
            extrusion_x: extrusion.x,
            extrusion_y: extrusion.y,
            extrusion_z: extrusion.z,
            pattern_angle: h.pattern_angle,
            pattern_scale: h.pattern_scale,
            pixel_size: h.pixel_size,
            fields: h.into(),
        }
    }
}

impl From<HatchRead<u64, GradientColorBits>> for BodyBitsAnswer {
    ghost from_gives = { λ read answer. answer ≡ body_bits read };

    fn from(read: HatchRead<u64, GradientColorBits>) -> BodyBitsAnswer {
        match read {
            Ok(h) => BodyBitsAnswer::new(0, h),
            Err(e) => BodyBitsAnswer::new(u64::from(u8::from(e.refusal)), zero_hatch(e.place)),
        }
    }
}

// The answer of a call, with the colours read once more where there are some. Where there are none it is made at once; the two ways are calls of their
// own, since one answer for both would be copied field by field.
#[tactic(auto, using(hatch_record::proofs::RecordLaws::plain_is))]
pub fn answer(main: &[u8], read: &BodyRead) -> BodyAnswer
    requires { Readable main.now read.now }
    ensures { result ≡ body_answer (answer_in double color_as_doubles main.now read.now) }
{
    if 0 < hatch_record::num_colors(*read) {
        return hatch_record::colored::<f64, GradientColor>(main, *read).into();
    }
    hatch_record::plain::<f64, GradientColor>(*read).into()
}

// The same with each double as its 64 bits.
// One function over `A: From<HatchRead<N, C>>` was tried: its calls ask that a hatch of open N and C fits into memory, which no bound says of them.
#[tactic(auto, using(hatch_record::proofs::RecordLaws::plain_is))]
pub fn answer_bits(main: &[u8], read: &BodyRead) -> BodyBitsAnswer
    requires { Readable main.now read.now }
    ensures { result ≡ body_bits (answer_in (λ bits. bits) (λ color. color) main.now read.now) }
{
    if 0 < hatch_record::num_colors(*read) {
        return hatch_record::colored::<u64, GradientColorBits>(main, *read).into();
    }
    hatch_record::plain::<u64, GradientColorBits>(*read).into()
}

impl From<LengthsRead> for LengthsAnswer {
    ghost from_gives = { λ read answer. answer ≡ lengths_answer read };

    fn from(read: LengthsRead) -> LengthsAnswer {
        let (refusal, words, numbers, ends) = match read {
            Ok(lengths) => (0, lengths.words, lengths.numbers, lengths.places),
            Err(e) => (u64::from(u8::from(e.refusal)), 0, 0, e.place),
        };
        LengthsAnswer {
            refusal,
            place: ends.main,
            string_place: ends.string,
            words,
            numbers,
        }
    }
}
