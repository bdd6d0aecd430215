// Text of 8-bit units by Windows code page 1252, as 16-bit units and back: src/code_page.rs of dwg-rs (its page 1252); document 02, L3.
// A step of its own behind reading, which keeps raw units. All tests come before the first store.
// specs/ have the table and what a call answers: 14, then 11, and every entry of the output; that each way undoes the other stands there and in proofs/.
#![tactic(auto)]

ghost use Rattle.code_page.specs.Mapping.{unit_of, byte_of};
ghost use Rattle.code_page.specs.Conversion.{Converts};

mod bytes;
mod character;
mod conversion;
mod refusal;
pub mod table;
mod units;

pub use refusal::ConversionRefusal;

// The units of 8-bit text, one for each byte, at the front of the output: how many were written, or why none was.
#[tactic(auto, using(crate::proofs::OwnEntries::unit_there))]
pub fn to_units(bytes: &[u8], units: &mut [u16]) -> Result<usize, ConversionRefusal>
    ensures { Converts unit_of bytes.now result units.old units.new }
{
    conversion::convert(bytes, units)
}

// The way back: the bytes of 16-bit units.
#[tactic(auto, using(crate::proofs::OwnEntries::byte_there))]
pub fn to_bytes(units: &[u16], bytes: &mut [u8]) -> Result<usize, ConversionRefusal>
    ensures { Converts byte_of units.now result bytes.old bytes.new }
{
    conversion::convert(units, bytes)
}
