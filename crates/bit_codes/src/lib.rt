// The bit codes of DWG, read from bytes at any bit by value: src/bitcursor.rs of dwg-rs, section 2 of the ODA's specification.
// The specs/ of crate `bitcursor` promise, for every payload and place, the value and place of a layout by the code's table, or document 01's
// refusal. Each call takes any bytes and any place; the readers of `bitcursor::within` do the work once the payload is known to be within the limit.
// One call for each code, as the Rust has them: each is named for its code and promises it, and what they share is `payload` and a reader of `within`.
#![tactic(auto, using(crate::proofs::Readings::calls))]

ghost use Rattle.std.specs.Prelude.{◌≡◌};
ghost use Rattle.bitcursor.specs.Codes.{B, BB, «3B», RC, RS, RL, RD, BS, BL, signed_BS, signed_BL};
ghost use Rattle.bitcursor.specs.Doubles.{BD, DD};
ghost use Rattle.bitcursor.specs.Handles.{BLL, HANDLE};
ghost use Rattle.bitcursor.specs.Answers.{limited, outcome, value_as};

use bitcursor::values::{Number, long_of, short_of};
use bitcursor::{Handle, Reading, payload, within};

// B: one bit.
pub fn read_b(s: &[u8], at: usize) -> Reading<bool>
    ensures { outcome result ≡ limited B.read s.now at }
{
    let s = &payload(s, at)?;
    within::read_flag(s, at)
}

// BB: two bits.
pub fn read_bb(s: &[u8], at: usize) -> Reading<u64>
    ensures { outcome result ≡ limited BB.read s.now at }
{
    let s = &payload(s, at)?;
    within::read_bits(s, at, 2)
}

// 3B: three bits.
pub fn read_3b(s: &[u8], at: usize) -> Reading<u64>
    ensures { outcome result ≡ limited «3B».read s.now at }
{
    let s = &payload(s, at)?;
    within::read_bits(s, at, 3)
}

// RC: one byte.
pub fn read_rc(s: &[u8], at: usize) -> Reading<u64>
    ensures { outcome result ≡ limited RC.read s.now at }
{
    let s = &payload(s, at)?;
    within::read_low(s, at, 1)
}

// RS: two bytes, signed.
pub fn read_rs(s: &[u8], at: usize) -> Reading<i16>
    ensures { outcome result ≡ limited RS.read s.now at }
{
    let s = &payload(s, at)?;
    let (v, p) = within::read_low(s, at, 2)?;
    Ok((short_of(v), p))
}

// RL: four bytes.
pub fn read_rl(s: &[u8], at: usize) -> Reading<u64>
    ensures { outcome result ≡ limited RL.read s.now at }
{
    let s = &payload(s, at)?;
    within::read_low(s, at, 4)
}

// RD: the double of eight bytes, or its 64 bits.
pub fn read_rd<N: Number>(s: &[u8], at: usize) -> Reading<N>
    ensures { outcome result ≡ value_as N.of_bits (limited RD.read s.now at) }
{
    let s = &payload(s, at)?;
    let (bits, p) = within::read_low(s, at, 8)?;
    Ok((N::from_bits(bits), p))
}

// BS, signed.
pub fn read_bs(s: &[u8], at: usize) -> Reading<i16>
    ensures { outcome result ≡ limited signed_BS.read s.now at }
{
    let s = &payload(s, at)?;
    let (v, p) = within::read_bs_u(s, at)?;
    Ok((short_of(v), p))
}

// BS, unsigned.
pub fn read_bs_u(s: &[u8], at: usize) -> Reading<u64>
    ensures { outcome result ≡ limited BS.read s.now at }
{
    let s = &payload(s, at)?;
    within::read_bs_u(s, at)
}

// BL, signed.
pub fn read_bl(s: &[u8], at: usize) -> Reading<i32>
    ensures { outcome result ≡ limited signed_BL.read s.now at }
{
    let s = &payload(s, at)?;
    let (v, p) = within::read_bl_u(s, at)?;
    Ok((long_of(v), p))
}

// BL, unsigned.
pub fn read_bl_u(s: &[u8], at: usize) -> Reading<u64>
    ensures { outcome result ≡ limited BL.read s.now at }
{
    let s = &payload(s, at)?;
    within::read_bl_u(s, at)
}

// BLL: three bits, and that many bytes.
pub fn read_bll(s: &[u8], at: usize) -> Reading<u64>
    ensures { outcome result ≡ limited BLL.read s.now at }
{
    let s = &payload(s, at)?;
    within::read_bll(s, at)
}

// BD, as the double or its 64 bits.
pub fn read_bd<N: Number>(s: &[u8], at: usize) -> Reading<N>
    ensures { outcome result ≡ value_as N.of_bits (limited BD.read s.now at) }
{
    let s = &payload(s, at)?;
    let (bits, p) = within::read_bd_bits(s, at)?;
    Ok((N::from_bits(bits), p))
}

// DD with a default, as doubles or their 64 bits.
pub fn read_dd<N: Number>(s: &[u8], at: usize, default: N) -> Reading<N>
    ensures { outcome result ≡ value_as N.of_bits (limited (DD (N.bits_of default)).read s.now at) }
{
    let s = &payload(s, at)?;
    let (bits, p) = within::read_dd_bits(s, at, default.to_bits())?;
    Ok((N::from_bits(bits), p))
}

// A handle: code, counter, and that many bytes with the high one first.
pub fn read_handle(s: &[u8], at: usize) -> Reading<Handle>
    ensures { outcome result ≡ limited HANDLE.read s.now at }
{
    let s = &payload(s, at)?;
    within::read_handle(s, at)
}
