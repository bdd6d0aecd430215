// The gradient: its block of fields, its colours passed over, and its name.
ghost use Rattle.std.specs.Prelude.{◌≡◌, ◌≤◌, leb};
ghost use Rattle.bitcursor.specs.Answers.{outcome};
ghost use Rattle.text.specs.Releases.{release_number};
ghost use Rattle.hatch_front.specs.Passed.{block_passed, gradient_passed};
ghost use Rattle.hatch_front.specs.Answers.{shown_of};

use crate::{Gradient, colors};
use bitcursor::{Payload, Places, Reading, within};
use hatch_points::counts;
use text::version::Version;
use text::{Payloads, Text};

// The fields of a gradient in front of its name, without its colours, which stand from `colors_at` on.
#[derive(Clone, Copy, Debug, PartialEq, Eq)]
pub struct Block {
    pub flag: u64,
    pub angle: u64,
    pub shift: u64,
    pub single_color: u32,
    pub tint: u64,
    pub num_colors: usize,
    pub colors_at: usize,
}

// The block; its colours are at most 16.
#[tactic(auto, using(bitcursor::proofs::FormatSteps::fields, bitcursor::proofs::Smalls::smalls, crate::proofs::Steps::steps), unfolding(crate::specs::Passed::block_passed))]
fn read_block(s: &Payload, at: usize, cap: usize) -> Reading<Block>
    requires { cap ≤ 16 }
    ensures { outcome result ≡ (block_passed cap).read s.now at }
{
    let (flag, p) = within::read_bl_u(s, at)?;
    let (_, p) = within::read_bl_u(s, p)?;
    let (angle, p) = within::read_bd_bits(s, p)?;
    let (shift, p) = within::read_bd_bits(s, p)?;
    let (single_color, p) = within::read_bl_u(s, p)?;
    let (tint, p) = within::read_bd_bits(s, p)?;
    let (n, colors_at) = counts::read_count(s, p, cap)?;
    let num_colors = n as usize;
    let q = colors::pass_colors(s, colors_at, num_colors)?;
    let block = Block {
        flag,
        angle,
        shift,
        single_color: single_color as u32,
        tint,
        num_colors,
        colors_at,
    };
    Ok((block, q))
}

// What is handed over of a block and its name: nothing where its flag is 0.
fn shown(b: Block, name: Text) -> Option<Gradient>
    ensures { result ≡ shown_of b name }
{
    if b.flag == 0 {
        return None;
    }
    Some(Gradient {
        angle: b.angle,
        shift: b.shift,
        is_single_color: b.single_color,
        tint: b.tint,
        num_colors: b.num_colors,
        colors_at: b.colors_at,
        name,
    })
}

// The gradient: its block and its name are read with flag 0 too; releases 1 and 2 have neither.
#[tactic(auto, using(bitcursor::proofs::FormatSteps::fields), unfolding(crate::specs::Passed::gradient_passed))]
pub fn decode_gradient(
    payloads: &Payloads,
    at: Places,
    v: Version,
    cap: usize,
) -> Reading<Option<Gradient>, Places>
    requires { cap ≤ 16 }
    ensures { outcome result ≡ (gradient_passed cap v (leb 3 (release_number v))).read payloads.now at }
{
    if !v.is_from(Version::R2004) {
        return Ok((None, at));
    }
    let (block, p) = at.after_main(read_block(&payloads.main, at.main, cap))?;
    let (name, q) = text::within::read_tv_field(payloads, p, v)?;
    Ok((shown(block, name), q))
}
