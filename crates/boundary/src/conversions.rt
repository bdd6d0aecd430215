// What converting text by a code page gives.
ghost use Rattle.std.specs.Prelude.{◌≡◌};
ghost use Rattle.boundary.specs.ConversionBoundary.{conversion_answer};

use code_page::ConversionRefusal;

// The refusal's number or 0, and how many entries were written or 0. No DWG bits are read, so the places are 0.
#[repr(C)]
#[derive(Clone, Copy)]
pub struct ConversionAnswer {
    pub refusal: u64,
    pub place: usize,
    pub string_place: usize,
    pub count: usize,
}

impl From<Result<usize, ConversionRefusal>> for ConversionAnswer {
    ghost from_gives = { λ outcome answer. answer ≡ conversion_answer outcome };

    fn from(outcome: Result<usize, ConversionRefusal>) -> ConversionAnswer {
        let (refusal, count) = match outcome {
            Ok(count) => (0, count),
            Err(refusal) => (u64::from(u8::from(refusal)), 0),
        };
        ConversionAnswer {
            refusal,
            place: 0,
            string_place: 0,
            count,
        }
    }
}
