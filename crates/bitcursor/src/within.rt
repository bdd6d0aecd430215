// The readers of a payload, which is within document 01's limit: raw bits and bytes, and the codes over them.
// Payload and place are two: the place goes from field to field and the payload does not, so a struct of both would be made anew at each.
ghost use Rattle.std.specs.Prelude.{◌≡◌, ◌+◌, ◌/◌, ◌^◌, ◌≤◌, ◌<◌, length};
ghost use Rattle.bitcursor.specs.Code.{raw};
ghost use Rattle.bitcursor.specs.Bytes.{low_first, high_first, skip};
ghost use Rattle.bitcursor.specs.Codes.{by_tag, B, BS, BL};
ghost use Rattle.bitcursor.specs.Doubles.{BD, DD, four, six};
ghost use Rattle.bitcursor.specs.Handles.{BLL, HANDLE, HANDLE_value};
ghost use Rattle.bitcursor.specs.Answers.{outcome, passing};

use crate::{Handle, Passing, Payload, Reading, Refusal, refuse};

// The next n bits. A payload that is not empty has n bits, so that its last place for them is known, and one comparison tells. A row of flags
// has it many times, and the compiler would leave it a call that hands its answer over by memory: so it is marked.
// That n is at most 8 stands in a clause, here and below: callers have a literal, a count of three or four bits just read, or the n that they were given,
// and would make a value of such a type at each call.
#[tactic(auto, using(crate::specs::Bytes::raw_there, crate::specs::Bytes::raw_short))]
#[inline(always)]
pub fn read_bits(s: &Payload, at: usize, n: usize) -> Reading<u64>
    requires { (1 ≤ n) × (n ≤ 8) }
    ensures { outcome result ≡ (raw n).read s.now at }
{
    let end = s.size();
    if end == 0 {
        return refuse(Refusal::TooFewBits, at);
    }
    if end - n < at {
        return refuse(Refusal::TooFewBits, at);
    }
    Ok((loads::bits_at(s.bytes(), at, n), at + n))
}

// B.
#[tactic(auto, using(crate::proofs::Steps::reading), unfolding(crate::specs::Codes::B, crate::specs::Codes::B_read))]
pub fn read_flag(s: &Payload, at: usize) -> Reading<bool>
    ensures { outcome result ≡ B.read s.now at }
{
    let (v, p) = read_bits(s, at, 1)?;
    Ok((v == 1, p))
}

// Past n bytes, by one comparison.
#[tactic(auto, using(crate::specs::Stops::skip_there, crate::specs::Stops::skip_short))]
pub fn skip_bytes(s: &Payload, at: usize, n: usize) -> Passing
    ensures { passing result ≡ (skip n).read s.now at }
{
    if n == 0 {
        return Ok(at);
    }
    let end = s.size();
    if end <= at {
        return refuse(Refusal::TooFewBits, at);
    }
    let whole = (end - at) / 8;
    if whole < n {
        return refuse(Refusal::TooFewBits, at + whole * 8);
    }
    Ok(at + n * 8)
}

// The next n bytes, the low one first.
pub fn read_low(s: &Payload, at: usize, n: usize) -> Reading<u64>
    requires { n ≤ 8 }
    ensures { outcome result ≡ (low_first n).read s.now at }
{
    if n == 0 {
        return Ok((0, at));
    }
    let p = skip_bytes(s, at, n)?;
    Ok((loads::low_at(s, at, n), p))
}

// The next n bytes, the high one first. `read_low` and it differ in the load and in the code that their contracts name: a closure would bring a
// contract of its own for the load, which is longer than the lines that they share.
fn read_high(s: &Payload, at: usize, n: usize) -> Reading<u64>
    requires { n ≤ 8 }
    ensures { outcome result ≡ (high_first n).read s.now at }
{
    if n == 0 {
        return Ok((0, at));
    }
    let p = skip_bytes(s, at, n)?;
    Ok((loads::high_at(s, at, n), p))
}

// What follows the tags 00 and 01 of a BS or a BL: n bytes, or one. BS and BL share it, so that the compiler leaves it a call, and puts the
// two, which have the codes that are a tag alone before it, into their callers.
// Tags are matched as the two bits that they are, here and below: each code gives them other meanings (11 is 256 in a BS, refused in a BL, eight bytes
// in a DD), so that an enum of the four would have no names but theirs.
#[tactic(auto, using(crate::proofs::Steps::reading), unfolding(crate::specs::Codes::by_tag))]
fn read_tagged(s: &Payload, at: usize, tag: u64, n: usize) -> Reading<u64>
    requires { n ≤ 8 }
    ensures { outcome result ≡ (by_tag (low_first n) (low_first 1) (low_first 1) (low_first 1) tag).read s.now at }
{
    if tag == 0 {
        return read_low(s, at, n);
    }
    read_low(s, at, 1)
}

// BS, unsigned.
#[tactic(auto, using(crate::proofs::Steps::reading), unfolding(crate::specs::Codes::BS, crate::specs::Codes::BS_read, crate::specs::Codes::tagged, crate::specs::Codes::by_tag))]
pub fn read_bs_u(s: &Payload, at: usize) -> Reading<u64>
    ensures { outcome result ≡ BS.read s.now at }
{
    let (tag, p) = read_bits(s, at, 2)?;
    if tag == 2 {
        return Ok((0, p));
    }
    if tag == 3 {
        return Ok((256, p));
    }
    read_tagged(s, p, tag, 2)
}

// BL, unsigned.
#[tactic(auto, using(crate::proofs::Steps::reading), unfolding(crate::specs::Codes::BL, crate::specs::Codes::BL_read, crate::specs::Codes::tagged, crate::specs::Codes::by_tag))]
pub fn read_bl_u(s: &Payload, at: usize) -> Reading<u64>
    ensures { outcome result ≡ BL.read s.now at }
{
    let (tag, p) = read_bits(s, at, 2)?;
    if tag == 2 {
        return Ok((0, p));
    }
    if tag == 3 {
        return refuse(Refusal::ReservedTag, p);
    }
    read_tagged(s, p, tag, 4)
}

// BD, as its 64 bits.
#[tactic(auto, using(crate::proofs::Steps::reading), unfolding(crate::specs::Doubles::BD, crate::specs::Doubles::BD_read, crate::specs::Codes::tagged, crate::specs::Codes::by_tag))]
pub fn read_bd_bits(s: &Payload, at: usize) -> Reading<u64>
    ensures { outcome result ≡ BD.read s.now at }
{
    let (tag, p) = read_bits(s, at, 2)?;
    match tag {
        0 => read_low(s, p, 8),
        1 => Ok((0x3ff0_0000_0000_0000, p)),
        2 => Ok((0, p)),
        _ => refuse(Refusal::ReservedTag, p),
    }
}

// The same where the ten bytes from the tag's on are there: no other comparison with the payload's length. For loops over many; the
// caller makes the one comparison, so that the loop has both ways in it and no call.
pub fn read_bd_there(s: &Payload, at: usize) -> Reading<u64>
    requires { at / 8 + 10 ≤ length s.now }
    ensures { outcome result ≡ BD.read s.now at }
{
    let bytes = s.bytes();
    let top = loads::top_at(bytes, at);
    match top >> 62 {
        0 => Ok((loads::low_behind(bytes, at, top), at + 66)),
        1 => Ok((0x3ff0_0000_0000_0000, at + 2)),
        2 => Ok((0, at + 2)),
        _ => refuse(Refusal::ReservedTag, at + 2),
    }
}

// What follows the tag 10 of a DD: two bytes over bytes 4 and 5 of the default, and four over its low four.
#[tactic(auto, using(crate::proofs::Steps::reading), unfolding(crate::specs::Doubles::six))]
fn read_six(s: &Payload, at: usize, default: u64) -> Reading<u64>
    ensures { outcome result ≡ (six default).read s.now at }
{
    let (middle, p) = read_low(s, at, 2)?;
    let (low, q) = read_low(s, p, 4)?;
    let top = default / 0x1_0000_0000_0000 * 0x1_0000_0000_0000;
    Ok((top + middle * 0x1_0000_0000 + low, q))
}

// What follows the tag 01 of a DD: four bytes over the low four of the default.
#[tactic(auto, using(crate::proofs::Steps::reading), unfolding(crate::specs::Doubles::four))]
fn read_four(s: &Payload, at: usize, default: u64) -> Reading<u64>
    ensures { outcome result ≡ (four default).read s.now at }
{
    let (low, p) = read_low(s, at, 4)?;
    let top = default / 0x1_0000_0000 * 0x1_0000_0000;
    Ok((top + low, p))
}

// DD, as its 64 bits and its default's.
#[tactic(auto, using(crate::proofs::Steps::reading), unfolding(crate::specs::Doubles::DD, crate::specs::Doubles::DD_read, crate::specs::Codes::tagged, crate::specs::Codes::by_tag))]
pub fn read_dd_bits(s: &Payload, at: usize, default: u64) -> Reading<u64>
    ensures { outcome result ≡ (DD default).read s.now at }
{
    let (tag, p) = read_bits(s, at, 2)?;
    match tag {
        0 => Ok((default, p)),
        1 => read_four(s, p, default),
        2 => read_six(s, p, default),
        _ => read_low(s, p, 8),
    }
}

#[tactic(auto, using(crate::proofs::Steps::reading), unfolding(crate::specs::Handles::BLL, crate::specs::Handles::BLL_read))]
pub fn read_bll(s: &Payload, at: usize) -> Reading<u64>
    ensures { outcome result ≡ BLL.read s.now at }
{
    let (count, p) = read_bits(s, at, 3)?;
    read_low(s, p, count as usize)
}

// What follows the two nibbles of a handle.
#[tactic(auto, using(crate::proofs::Steps::reading), unfolding(crate::specs::Handles::HANDLE_value, crate::specs::Handles::checked))]
fn handle_value(s: &Payload, at: usize, code: u64, counter: u64) -> Reading<Handle>
    requires { (code < 16) × (counter < 16) }
    ensures { outcome result ≡ (HANDLE_value code counter).read s.now at }
{
    if 8 < counter {
        return refuse(Refusal::HandleCounter, at);
    }
    let (value, p) = read_high(s, at, counter as usize)?;
    let handle = Handle {
        code: code as u8,
        counter: counter as u8,
        value,
    };
    Ok((handle, p))
}

#[tactic(auto, using(crate::proofs::Steps::reading), unfolding(crate::specs::Handles::HANDLE, crate::specs::Handles::HANDLE_read))]
pub fn read_handle(s: &Payload, at: usize) -> Reading<Handle>
    ensures { outcome result ≡ HANDLE.read s.now at }
{
    let (code, p) = read_bits(s, at, 4)?;
    let (counter, q) = read_bits(s, p, 4)?;
    handle_value(s, q, code, counter)
}
