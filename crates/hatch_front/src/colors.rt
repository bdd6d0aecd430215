// A gradient's colours: passed over where they stand, or read into the record's sixteen.
ghost use Rattle.std.specs.Prelude.{◌≡◌, [], ◌≤◌, map};
ghost use Rattle.bitcursor.specs.Answers.{outcome, passing};
ghost use Rattle.hatch_format.specs.Counts.{times};
ghost use Rattle.hatch_format.specs.Gradients.{color};
ghost use Rattle.hatch_format.specs.Record.{zero_color, sixteen};
ghost use Rattle.hatch_front.specs.Answers.{passed_of, sixteen_of};

use bitcursor::{Passing, Payload, Reading, values, within};
use hatch_format::{Color, GradientColorBits};

fn zero_color() -> GradientColorBits
    ensures { result ≡ zero_color }
{
    GradientColorBits {
        unknown_double: 0,
        unknown_short: 0,
        rgb: 0,
        ignored_color_byte: 0,
    }
}

// No colour: each of the sixteen is zero.
pub fn zero_colors<C: Color>() -> [C; 16]
    ensures { result ≡ map C.of_bits (sixteen []) }
{
    [C::from_bits(zero_color()); 16]
}

#[tactic(auto, using(bitcursor::proofs::FormatSteps::fields, bitcursor::proofs::Smalls::smalls, crate::proofs::Steps::colors), unfolding(hatch_format::specs::Gradients::color, hatch_format::specs::Gradients::color_read))]
fn read_color(s: &Payload, at: usize) -> Reading<GradientColorBits>
    ensures { outcome result ≡ color.read s.now at }
{
    let (double, p) = within::read_bd_bits(s, at)?;
    let (short, q) = within::read_bs_u(s, p)?;
    let (rgb, r) = within::read_bl_u(s, q)?;
    let (byte, t) = within::read_low(s, r, 1)?;
    let color = GradientColorBits {
        unknown_double: double,
        unknown_short: values::short_of(short),
        rgb: rgb as u32,
        ignored_color_byte: byte as u8,
    };
    Ok((color, t))
}

// The place behind n colours. No Turn of hatch_points: there are no lists and no lengths used here.
pub fn pass_colors(s: &Payload, at: usize, n: usize) -> Passing
    ensures { passing result ≡ passed_of ((times n color).read s.now at) }
{
    let mut p = at;
    for _ in 0..n {
        let (_, q) = read_color(s, p)?;
        p = q;
    }
    Ok(p)
}

// n colours, and zero behind them; zero throughout where they are refused.
pub fn read_colors<C: Color>(s: &Payload, at: usize, n: usize) -> [C; 16]
    requires { n ≤ 16 }
    ensures { result ≡ map C.of_bits (sixteen_of ((times n color).read s.now at)) }
{
    let mut colors = zero_colors();
    let mut p = at;
    for slot in colors[..n].iter_mut() {
        let Ok((color, q)) = read_color(s, p) else {
            return zero_colors();
        };
        *slot = C::from_bits(color);
        p = q;
    }
    colors
}
