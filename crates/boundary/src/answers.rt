// The answers of the calls as numbers: what crosses the boundary in place of a Result.
ghost use Rattle.std.specs.Prelude.{◌≡◌};
ghost use Rattle.bitcursor.specs.Answers.{outcome};
ghost use Rattle.boundary.specs.Boundary.{number, place, value_or};
ghost use Rattle.boundary.specs.Boundary.{code_answer, bool_answer, signed_answer, double_answer, handle_answer, text_answer};

use crate::{CodeAnswer, DoubleAnswer, HandleAnswer, SignedAnswer, TextAnswer};
use bitcursor::{Handle, Reading};
use text::{NO_TEXT, Text};

// What every answer begins with, and what was read: the refusal's number or 0, the place, and the value or what stands for it on a refusal.
fn parts<T: Copy>(read: Reading<T>, none: T) -> (u64, usize, T)
    ensures { result ≡ (number (outcome read), place (outcome read), value_or none (outcome read)) }
{
    match read {
        Ok((value, place)) => (0, place, value),
        Err(e) => (u64::from(u8::from(e.refusal)), e.place, none),
    }
}

impl From<Reading<u64>> for CodeAnswer {
    ghost from_gives = { λ read answer. answer ≡ code_answer (outcome read) };

    fn from(read: Reading<u64>) -> CodeAnswer {
        let (refusal, place, value) = parts(read, 0);
        CodeAnswer {
            refusal,
            place,
            value,
        }
    }
}

impl From<Reading<bool>> for CodeAnswer {
    ghost from_gives = { λ read answer. answer ≡ bool_answer (outcome read) };

    fn from(read: Reading<bool>) -> CodeAnswer {
        let (refusal, place, value) = parts(read, false);
        CodeAnswer {
            refusal,
            place,
            value: u64::from(value),
        }
    }
}

impl From<Reading<i16>> for SignedAnswer {
    ghost from_gives = { λ read answer. answer ≡ signed_answer (outcome read) };

    fn from(read: Reading<i16>) -> SignedAnswer {
        let (refusal, place, value) = parts(read, 0);
        SignedAnswer {
            refusal,
            place,
            value: i32::from(value),
        }
    }
}

impl From<Reading<i32>> for SignedAnswer {
    ghost from_gives = { λ read answer. answer ≡ signed_answer (outcome read) };

    fn from(read: Reading<i32>) -> SignedAnswer {
        let (refusal, place, value) = parts(read, 0);
        SignedAnswer {
            refusal,
            place,
            value,
        }
    }
}

impl From<Reading<f64>> for DoubleAnswer {
    ghost from_gives = { λ read answer. answer ≡ double_answer (outcome read) };

    fn from(read: Reading<f64>) -> DoubleAnswer {
        let (refusal, place, value) = parts(read, 0.0);
        DoubleAnswer {
            refusal,
            place,
            value,
        }
    }
}

// What stands for a handle on a refusal.
const NO_HANDLE: Handle = Handle {
    code: 0,
    counter: 0,
    value: 0,
};

impl From<Reading<Handle>> for HandleAnswer {
    ghost from_gives = { λ read answer. answer ≡ handle_answer (outcome read) };

    fn from(read: Reading<Handle>) -> HandleAnswer {
        let (refusal, place, h) = parts(read, NO_HANDLE);
        HandleAnswer {
            refusal,
            place,
            code: h.code,
            counter: h.counter,
            value: h.value,
        }
    }
}

impl From<Reading<Text>> for TextAnswer {
    ghost from_gives = { λ read answer. answer ≡ text_answer (outcome read) };

    fn from(read: Reading<Text>) -> TextAnswer {
        let (refusal, place, t) = parts(read, NO_TEXT);
        TextAnswer {
            refusal,
            place,
            source: t.source.into(),
            width: t.width,
            padded: t.padded,
            position: t.position,
            count: t.count,
        }
    }
}
