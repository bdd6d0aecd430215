// Text converted by code page 1252, across the boundary; thin over crate code_page.
// specs/ConversionCalls promises that each answer is the call's as numbers; the output is what the call leaves there.
ghost use Rattle.code_page.specs.Mapping.{unit_of, byte_of};
ghost use Rattle.dwg_hatch.specs.ConversionCalls.{ConvertsAcross};

use boundary::conversions::ConversionAnswer;

// The 16-bit units of 8-bit text, one for each byte.
#[unsafe(no_mangle)]
pub extern "C" fn dwg_cp1252_to_units(bytes: &[u8], units: &mut [u16]) -> ConversionAnswer
    ensures { ConvertsAcross unit_of bytes.now result units.old units.new }
{
    code_page::to_units(bytes, units).into()
}

// The way back: the bytes of 16-bit units.
#[unsafe(no_mangle)]
pub extern "C" fn dwg_cp1252_to_bytes(units: &[u16], bytes: &mut [u8]) -> ConversionAnswer
    ensures { ConvertsAcross byte_of units.now result bytes.old bytes.new }
{
    code_page::to_bytes(units, bytes).into()
}
