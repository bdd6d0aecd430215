// Why a list is not converted: an entry stands for nothing in the code page, or the output is shorter than the input.
ghost use Rattle.std.specs.Prelude.{◌≡◌};
ghost use Rattle.code_page.specs.Conversion.{conversion_refusal_number};

use std::error::Error;
use std::fmt;

#[derive(Clone, Copy, Debug, PartialEq, Eq)]
pub enum ConversionRefusal {
    UndefinedCharacter,
    OutputTooShort,
}

// The numbers of document 02's table.
impl From<ConversionRefusal> for u8 {
    ghost from_gives = { λ refusal number. number ≡ conversion_refusal_number refusal };

    fn from(refusal: ConversionRefusal) -> u8 {
        match refusal {
            ConversionRefusal::UndefinedCharacter => 14,
            ConversionRefusal::OutputTooShort => 11,
        }
    }
}

impl fmt::Display for ConversionRefusal {
    fn fmt<W: fmt::Write>(&self, f: &mut fmt::Formatter<W>) -> fmt::Result {
        match self {
            ConversionRefusal::UndefinedCharacter => write!(
                f,
                "an entry stands for nothing in code page 1252"
            ),
            ConversionRefusal::OutputTooShort => write!(f, "the output is shorter than the input"),
        }
    }
}

impl Error for ConversionRefusal {}
