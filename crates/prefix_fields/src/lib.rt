// The prefix's fields that are more than one code: the XDATA chain, graphics, and a colour's name: src/common_entity.rs of dwg-rs
// (`skip_extended_data`, `read_graphics_size`); section 20.4.1 of the specification.
// specs/ has the chain block by block; each contract is an equation with prefix_format's definition of the field.
#![tactic(auto)]

ghost use Rattle.std.specs.Prelude.{◌≡◌};
ghost use Rattle.bitcursor.specs.Answers.{outcome};
ghost use Rattle.bitcursor.specs.Codes.{RL};
ghost use Rattle.bitcursor.specs.Handles.{BLL, checked};
ghost use Rattle.prefix_format.specs.Prefix.{extended, graphics, name};
ghost use Rattle.prefix_fields.specs.Blocks.{block};

use bitcursor::{Payload, Reading, Refusal, refuse, within};

// One XDATA block: false where its size is 0, and true after a handle and that many bytes.
#[tactic(auto, using(bitcursor::proofs::Steps::reading), unfolding(crate::specs::Blocks::block, bitcursor::specs::Handles::checked))]
fn skip_block(s: &Payload, at: usize) -> Reading<bool>
    ensures { outcome result ≡ block.read s.now at }
{
    let (size, p) = within::read_bs_u(s, at)?;
    if size == 0 {
        return Ok((false, p));
    }
    let (_, q) = within::read_handle(s, p)?;
    let behind = within::skip_bytes(s, q, size as usize)?;
    Ok((true, behind))
}

// The XDATA chain block by block: whether there was one. After 256 nonzero blocks it is refused without another size.
pub fn skip_extended_data(s: &Payload, at: usize) -> Reading<bool>
    ensures { outcome result ≡ extended.read s.now at }
{
    let mut p = at;
    for blocks in 0..256usize {
        let (more, q) = skip_block(s, p)?;
        if !more {
            return Ok((0 < blocks, q));
        }
        p = q;
    }
    refuse(Refusal::TooManyXdataBlocks, p)
}

// Which of the two codes it is, a bool of the row says (prefix_format's table has why it is a bool).
#[tactic(auto, using(bitcursor::proofs::Steps::reading), unfolding(bitcursor::specs::Codes::RL, bitcursor::specs::Handles::checked))]
fn read_graphics_size(s: &Payload, at: usize, bll: bool) -> Reading<u64>
    ensures { outcome result ≡ (checked bll BLL RL).read s.now at }
{
    if bll {
        return within::read_bll(s, at);
    }
    within::read_low(s, at, 4)
}

// A bit, and where it is set a size, as a BLL or an RL, and that many bytes.
#[tactic(auto, using(bitcursor::proofs::Steps::reading), unfolding(prefix_format::specs::Prefix::graphics, prefix_format::specs::Prefix::graphics_block, bitcursor::specs::Handles::checked))]
pub fn skip_graphics(s: &Payload, at: usize, bll: bool) -> Reading<bool>
    ensures { outcome result ≡ (graphics bll).read s.now at }
{
    let (had, p) = within::read_flag(s, at)?;
    if !had {
        return Ok((false, p));
    }
    let (size, q) = read_graphics_size(s, p, bll)?;
    let end = within::skip_bytes(s, q, size as usize)?;
    Ok((true, end))
}

// A colour's name, read past.
#[tactic(auto, using(bitcursor::proofs::Steps::reading, crate::proofs::Laws::name_there, crate::proofs::Laws::name_short))]
pub fn skip_name(s: &Payload, at: usize, two_bytes: bool) -> Reading<()>
    ensures { outcome result ≡ (name two_bytes).read s.now at }
{
    let (_, p) = text::within::read_tv_by(s, at, two_bytes)?;
    Ok(((), p))
}
