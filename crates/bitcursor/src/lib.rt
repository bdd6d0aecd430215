// What the bit codes of DWG are, and their readers of a payload within the limit: src/bitcursor.rs of dwg-rs, section 2 of the ODA's
// specification. Crate `bit_codes` has the calls on any bytes.
// specs/ has codes and formats and what holds of each; it promises the value and place of a layout by the code's table, or document 01's refusal.
#![tactic(auto)]

ghost use Rattle.std.specs.Prelude.{◌≡◌, Err};
ghost use Rattle.bitcursor.specs.Answers.{payload_at};
ghost use Rattle.bitcursor.specs.Refusals.{refusal_number};

mod places;
pub mod values;
pub mod within;

pub use loads::{LIMIT, Payload};
pub use places::Places;

// Why a reading stops: the rows of document 01's table, to which `refusal_number` of specs/Refusals gives their numbers.
#[derive(Clone, Copy, Debug, PartialEq, Eq)]
pub enum Refusal {
    TooFewBits,
    ReservedTag,
    CountTooLarge,
    EdgeKind,
    HandleCounter,
    TextPastEnd,
    NotUtf16,
    TooManyXdataBlocks,
    UnknownRelease,
    PayloadTooLong,
    ListTooShort,
}

// The number of a refusal in document 01's table.
impl From<Refusal> for u8 {
    ghost from_gives = { λ refusal number. number ≡ refusal_number refusal };

    fn from(refusal: Refusal) -> u8 {
        match refusal {
            Refusal::TooFewBits => 1,
            Refusal::ReservedTag => 2,
            Refusal::CountTooLarge => 3,
            Refusal::EdgeKind => 4,
            Refusal::HandleCounter => 5,
            Refusal::TextPastEnd => 6,
            Refusal::NotUtf16 => 7,
            Refusal::TooManyXdataBlocks => 8,
            Refusal::UnknownRelease => 9,
            Refusal::PayloadTooLong => 10,
            Refusal::ListTooShort => 11,
        }
    }
}

// A refusal and its place: a bit of one payload, or one in each of both.
#[derive(Clone, Copy, Debug, PartialEq, Eq)]
pub struct Refused<P = usize> {
    pub refusal: Refusal,
    pub place: P,
}

// What a reading gives: a value and the place after it, or why there is none.
pub type Reading<T, P = usize> = Result<(T, P), Refused<P>>;

// The same where no value is wanted: the place alone.
pub type Passing<P = usize> = Result<P, Refused<P>>;

// A refusal at a place.
pub fn refuse<T, P>(refusal: Refusal, place: P) -> Result<T, Refused<P>>
    ensures { result ≡ Err (record { refusal = refusal; place = place }) }
{
    Err(Refused { refusal, place })
}

// A handle reference: its code, how many bytes the value has, and the value.
#[derive(Clone, Copy, Debug, PartialEq, Eq)]
pub struct Handle {
    pub code: u8,
    pub counter: u8,
    pub value: u64,
}

// Bytes as a payload: refusal 10, at the place, above document 01's limit.
pub fn payload(bytes: &[u8], at: usize) -> Result<Payload, Refused>
    ensures { result ≡ payload_at bytes.now at }
{
    let payload = Payload::new(bytes);
    payload.ok_or(Refused {
        refusal: Refusal::PayloadTooLong,
        place: at,
    })
}
