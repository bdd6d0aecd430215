// The C boundary: every call that a host links, on numbers and byte slices, thin over the proved calls of the other crates.
// No file of the Rust and no section of the public document: the names are dwg_ and the call's own.
// specs/ of crate boundary and of this one promise that each answer is the call's: refusal 0 and the value, or the refusal's number and its place and 0.
#![tactic(auto)]

ghost use Rattle.std.specs.Prelude.{◌≡◌};
ghost use Rattle.std.specs.Float.Ieee.{of_bits, to_bits};
ghost use Rattle.std.specs.Float.{binary64};
ghost use Rattle.bitcursor.specs.Codes.{B, BB, «3B», RC, RS, RL, RD, BS, BL, signed_BS, signed_BL};
ghost use Rattle.bitcursor.specs.Doubles.{BD, DD};
ghost use Rattle.bitcursor.specs.Handles.{BLL, HANDLE};
ghost use Rattle.bitcursor.specs.Answers.{limited, value_as};
ghost use Rattle.text.specs.Releases.{version_of};
ghost use Rattle.text.specs.Answers.{inline_text, reader_text, released};
ghost use Rattle.prefix_format.specs.Record.{data_of};
ghost use Rattle.prefix_format.specs.Call.{prefix_call};
ghost use Rattle.boundary.specs.PrefixBoundary.{bits_answer, double_answer as prefix_double_answer};
ghost use Rattle.boundary.specs.Boundary.{bool_answer, code_answer, signed_answer, double_answer, handle_answer, text_answer};

use boundary::{
    CodeAnswer, DoubleAnswer, HandleAnswer, PrefixAnswer, PrefixBitsAnswer, SignedAnswer,
    TextAnswer,
};

pub mod bodies;
pub mod code_pages;
pub mod moves;
pub mod seeds;

// B: one bit, 0 or 1.
#[unsafe(no_mangle)]
pub extern "C" fn dwg_read_b(s: &[u8], at: usize) -> CodeAnswer
    ensures { result ≡ bool_answer (limited B.read s.now at) }
{
    bit_codes::read_b(s, at).into()
}

// BB: two bits.
#[unsafe(no_mangle)]
pub extern "C" fn dwg_read_bb(s: &[u8], at: usize) -> CodeAnswer
    ensures { result ≡ code_answer (limited BB.read s.now at) }
{
    bit_codes::read_bb(s, at).into()
}

// 3B: three bits.
#[unsafe(no_mangle)]
pub extern "C" fn dwg_read_3b(s: &[u8], at: usize) -> CodeAnswer
    ensures { result ≡ code_answer (limited «3B».read s.now at) }
{
    bit_codes::read_3b(s, at).into()
}

// RC: one byte.
#[unsafe(no_mangle)]
pub extern "C" fn dwg_read_rc(s: &[u8], at: usize) -> CodeAnswer
    ensures { result ≡ code_answer (limited RC.read s.now at) }
{
    bit_codes::read_rc(s, at).into()
}

// RS: two bytes, signed.
#[unsafe(no_mangle)]
pub extern "C" fn dwg_read_rs(s: &[u8], at: usize) -> SignedAnswer
    ensures { result ≡ signed_answer (limited RS.read s.now at) }
{
    bit_codes::read_rs(s, at).into()
}

// RL: four bytes.
#[unsafe(no_mangle)]
pub extern "C" fn dwg_read_rl(s: &[u8], at: usize) -> CodeAnswer
    ensures { result ≡ code_answer (limited RL.read s.now at) }
{
    bit_codes::read_rl(s, at).into()
}

// RD, as the double.
#[unsafe(no_mangle)]
pub extern "C" fn dwg_read_rd(s: &[u8], at: usize) -> DoubleAnswer
    ensures { result ≡ double_answer (value_as (of_bits binary64) (limited RD.read s.now at)) }
{
    bit_codes::read_rd::<f64>(s, at).into()
}

// RD, as its 64 bits.
#[tactic(auto, using(crate::proofs::Same::same))]
#[unsafe(no_mangle)]
pub extern "C" fn dwg_read_rd_bits(s: &[u8], at: usize) -> CodeAnswer
    ensures { result ≡ code_answer (limited RD.read s.now at) }
{
    bit_codes::read_rd::<u64>(s, at).into()
}

// BS, signed.
#[unsafe(no_mangle)]
pub extern "C" fn dwg_read_bs(s: &[u8], at: usize) -> SignedAnswer
    ensures { result ≡ signed_answer (limited signed_BS.read s.now at) }
{
    bit_codes::read_bs(s, at).into()
}

// BS, unsigned.
#[unsafe(no_mangle)]
pub extern "C" fn dwg_read_bs_u(s: &[u8], at: usize) -> CodeAnswer
    ensures { result ≡ code_answer (limited BS.read s.now at) }
{
    bit_codes::read_bs_u(s, at).into()
}

// BL, signed.
#[unsafe(no_mangle)]
pub extern "C" fn dwg_read_bl(s: &[u8], at: usize) -> SignedAnswer
    ensures { result ≡ signed_answer (limited signed_BL.read s.now at) }
{
    bit_codes::read_bl(s, at).into()
}

// BL, unsigned.
#[unsafe(no_mangle)]
pub extern "C" fn dwg_read_bl_u(s: &[u8], at: usize) -> CodeAnswer
    ensures { result ≡ code_answer (limited BL.read s.now at) }
{
    bit_codes::read_bl_u(s, at).into()
}

// BLL: three bits, and that many bytes.
#[unsafe(no_mangle)]
pub extern "C" fn dwg_read_bll(s: &[u8], at: usize) -> CodeAnswer
    ensures { result ≡ code_answer (limited BLL.read s.now at) }
{
    bit_codes::read_bll(s, at).into()
}

// BD, as the double.
#[unsafe(no_mangle)]
pub extern "C" fn dwg_read_bd(s: &[u8], at: usize) -> DoubleAnswer
    ensures { result ≡ double_answer (value_as (of_bits binary64) (limited BD.read s.now at)) }
{
    bit_codes::read_bd::<f64>(s, at).into()
}

// BD, as its 64 bits.
#[tactic(auto, using(crate::proofs::Same::same))]
#[unsafe(no_mangle)]
pub extern "C" fn dwg_read_bd_bits(s: &[u8], at: usize) -> CodeAnswer
    ensures { result ≡ code_answer (limited BD.read s.now at) }
{
    bit_codes::read_bd::<u64>(s, at).into()
}

// DD with a default, as doubles.
#[unsafe(no_mangle)]
pub extern "C" fn dwg_read_dd(s: &[u8], at: usize, default: f64) -> DoubleAnswer
    ensures { result ≡ double_answer (value_as (of_bits binary64) (limited (DD (to_bits binary64 default)).read s.now at)) }
{
    bit_codes::read_dd(s, at, default).into()
}

// DD with a default, as their 64 bits.
#[tactic(auto, using(crate::proofs::Same::same))]
#[unsafe(no_mangle)]
pub extern "C" fn dwg_read_dd_bits(s: &[u8], at: usize, default: u64) -> CodeAnswer
    ensures { result ≡ code_answer (limited (DD default).read s.now at) }
{
    bit_codes::read_dd(s, at, default).into()
}

// A handle: code, counter, and that many bytes with the high one first.
#[unsafe(no_mangle)]
pub extern "C" fn dwg_read_handle(s: &[u8], at: usize) -> HandleAnswer
    ensures { result ≡ handle_answer (limited HANDLE.read s.now at) }
{
    bit_codes::read_handle(s, at).into()
}

// TV: inline text of a release.
#[unsafe(no_mangle)]
pub extern "C" fn dwg_read_tv(s: &[u8], at: usize, release: u64) -> TextAnswer
    ensures { result ≡ text_answer (released (λ v. limited (inline_text v)) (version_of release) s.now at) }
{
    text::read_tv(s, at, release).into()
}

// Text from a string reader that stands at `at` and ends at the bit `end`.
#[unsafe(no_mangle)]
pub extern "C" fn dwg_read_string_tv(s: &[u8], at: usize, end: usize) -> TextAnswer
    ensures { result ≡ text_answer (limited (reader_text end) s.now at) }
{
    text::read_string_tv(s, at, end).into()
}

// The entity prefix, the linetype scale as the double.
#[unsafe(no_mangle)]
pub extern "C" fn dwg_read_common_entity_data(s: &[u8], at: usize, release: u64) -> PrefixAnswer
    ensures { result ≡ prefix_double_answer (value_as (data_of (of_bits binary64)) (prefix_call release s.now at)) }
{
    common_entity::read_common_entity_data::<f64>(s, at, release).into()
}

// The entity prefix, the linetype scale as its 64 bits.
#[tactic(auto, using(prefix_format::proofs::Records::reading_same))]
#[unsafe(no_mangle)]
pub extern "C" fn dwg_read_common_entity_bits(s: &[u8], at: usize, release: u64) -> PrefixBitsAnswer
    ensures { result ≡ bits_answer (prefix_call release s.now at) }
{
    common_entity::read_common_entity_data::<u64>(s, at, release).into()
}
