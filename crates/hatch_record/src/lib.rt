// The record and the lengths of a hatch, made of the parts that were read: src/entities/hatch.rs of dwg-rs.
// Section 20.4.75 of the specification; sixteen colours, as document 01 has it.
// specs/ promise the record field by field from the parts, with each double as its 64 bits or as the double that it is, and its lengths.
#![tactic(auto)]

ghost use Rattle.std.specs.Prelude.{◌≡◌, [], ◌≤◌, ◌<◌, map};
ghost use Rattle.hatch_format.specs.Record.{sixteen};
ghost use Rattle.hatch_front.specs.Answers.{num_colors as colors_of};
ghost use Rattle.hatch_body.specs.Parts.{Small, Readable};
ghost use Rattle.hatch_record.specs.Records.{no_fields, fill_by, record_by, SmallIn, num_colors, colors_in, answer_with, answer_in, lengths_of};

use bitcursor::values::Number;
use bitcursor::{Payload, Places, Refused};
use hatch_body::{BodyRead, Parts};
use hatch_format::{Color, GradientColor, GradientFill, Hatch, Vec3D};
use hatch_front::{Gradient, colors};
use hatch_rest::patterns::Pattern;
use text::NO_TEXT;

// What a call hands over by value, with doubles and colours as a caller has them; or its refusal and the places of that.
pub type HatchRead<N = f64, C = GradientColor> = Result<Hatch<N, C>, Refused<Places>>;

// The lengths that the lists must have for a readable hatch, and its final places.
#[derive(Clone, Copy, Debug, PartialEq, Eq)]
pub struct Lengths {
    pub words: usize,
    pub numbers: usize,
    pub places: Places,
}

pub type LengthsRead = Result<Lengths, Refused<Places>>;

// The fields of an absent gradient: zero throughout, as document 01 has it.
fn no_fields() -> Gradient
    ensures { result ≡ no_fields }
{
    Gradient {
        angle: 0,
        shift: 0,
        is_single_color: 0,
        tint: 0,
        num_colors: 0,
        colors_at: 0,
        name: NO_TEXT,
    }
}

// A gradient with its colours. One literal for both kinds, since of two the colours would be copied.
fn fill<N: Number, C: Color>(gradient: Option<Gradient>, colors: [C; 16]) -> GradientFill<N, C>
    ensures { result ≡ fill_by N.of_bits colors gradient }
{
    let g = gradient.unwrap_or(no_fields());
    GradientFill {
        present: gradient.is_some(),
        angle: N::from_bits(g.angle),
        shift: N::from_bits(g.shift),
        is_single_color: g.is_single_color,
        tint: N::from_bits(g.tint),
        num_colors: g.num_colors,
        colors,
        name: g.name,
    }
}

// The record; of a solid hatch, which has no pattern, the pattern's fields are zero, as document 01 has it.
fn record<N: Number, C: Color>(a: Parts, colors: [C; 16]) -> Hatch<N, C>
    requires { Small a }
    ensures { result ≡ record_by N.of_bits colors a }
{
    let plane = a.front.plane;
    let rest = a.rest;
    let tail = rest.tail;
    let pattern = tail.pattern.unwrap_or(Pattern {
        angle: 0,
        scale: 0,
        double: false,
        lines: 0,
    });
    let ending = tail.ending;
    Hatch {
        gradient: fill(a.front.gradient, colors),
        elevation: N::from_bits(plane.elevation),
        extrusion: Vec3D {
            x: N::from_bits(plane.x),
            y: N::from_bits(plane.y),
            z: N::from_bits(plane.z),
        },
        pattern_name: a.front.name,
        solid_fill: tail.pattern.is_none(),
        associative: rest.associative,
        num_paths: rest.paths,
        pattern_style: tail.style as u16,
        pattern_type: tail.kind as u16,
        pattern_angle: N::from_bits(pattern.angle),
        pattern_scale: N::from_bits(pattern.scale),
        pattern_double: pattern.double,
        num_pattern_lines: pattern.lines,
        pixel_size: N::from_bits(ending.pixel_size),
        num_seed_points: ending.seed_points,
        words_used: a.used.words,
        numbers_used: a.used.numbers,
        places: a.places,
    }
}

// How many colours stand to be read again.
pub fn num_colors(r: BodyRead) -> usize
    ensures { result ≡ num_colors r }
{
    match r {
        Ok(a) => match a.front.gradient {
            Some(g) => g.num_colors,
            None => 0,
        },
        Err(_) => 0,
    }
}

// The answer of a call that has no colours.
pub fn plain<N: Number, C: Color>(r: BodyRead) -> HatchRead<N, C>
    requires { SmallIn r }
    ensures { result ≡ answer_with N.of_bits (map C.of_bits (sixteen [])) r }
{
    let a = r?;
    Ok(record(a, colors::zero_colors()))
}

// A gradient's colours, read from where they stand; zero where there is none.
fn colors_in<C: Color>(main: &Payload, gradient: Option<Gradient>) -> [C; 16]
    requires { colors_of gradient ≤ 16 }
    ensures { result ≡ map C.of_bits (colors_in main.now gradient) }
{
    match gradient {
        Some(g) => colors::read_colors(main, g.colors_at, g.num_colors),
        None => colors::zero_colors(),
    }
}

// The answer with the colours read once more, from where they stand; what parts were read of is within the limit. Bytes and parts are two: a refusal has
// no bytes to be read again, and `lengths_of` takes a call's answer without them.
pub fn colored<N: Number, C: Color>(main: &[u8], r: BodyRead) -> HatchRead<N, C>
    requires { Readable main.now r }
    ensures { result ≡ answer_in N.of_bits C.of_bits main.now r }
{
    let a = r?;
    let main = Payload::new(main).unwrap();
    Ok(record(a, colors_in(&main, a.front.gradient)))
}

// Colours are read again only where there are some.
#[tactic(auto, using(crate::proofs::RecordLaws::plain_is))]
pub fn answer<N: Number, C: Color>(main: &[u8], r: BodyRead) -> HatchRead<N, C>
    requires { Readable main.now r }
    ensures { result ≡ answer_in N.of_bits C.of_bits main.now r }
{
    if 0 < num_colors(r) {
        return colored(main, r);
    }
    plain(r)
}

// The lengths. No From: both sides are Results, of which no From can be given here.
pub fn lengths_of(r: BodyRead) -> LengthsRead
    ensures { result ≡ lengths_of r }
{
    let a = r?;
    let used = a.used;
    Ok(Lengths {
        words: used.words,
        numbers: used.numbers,
        places: a.places,
    })
}
