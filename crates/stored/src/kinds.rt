// The kinds of request, numbered as oracle/pack.rs has them.
use std::fmt;

// The codes, each by value; BdBits, RdBits and DdBits hand over a double's 64 bits, Bd, Rd and Dd the double. Then the entity prefix, the
// inline text, the hatch body without and with a string reader, and the text by a reader. No call answers an unknown one,
// which is a kind and no None, since a record of it is counted and written like any other.
#[derive(Clone, Copy, Debug, PartialEq, Eq)]
pub enum Kind {
    Unknown,
    B,
    Bb,
    ThreeB,
    Bs,
    BsU,
    Bl,
    BlU,
    BdBits,
    Bll,
    Rc,
    Rs,
    Rl,
    RdBits,
    Handle,
    DdBits,
    Bd,
    Rd,
    Dd,
    Prefix,
    Text,
    Hatch,
    HatchWithStrings,
    Reader,
}

impl Kind {
    // Every kind, in the order of the numbers; by hand, since no derive lists an enum's variants.
    pub const ALL: [Kind; 24] = [
        Kind::Unknown,
        Kind::B,
        Kind::Bb,
        Kind::ThreeB,
        Kind::Bs,
        Kind::BsU,
        Kind::Bl,
        Kind::BlU,
        Kind::BdBits,
        Kind::Bll,
        Kind::Rc,
        Kind::Rs,
        Kind::Rl,
        Kind::RdBits,
        Kind::Handle,
        Kind::DdBits,
        Kind::Bd,
        Kind::Rd,
        Kind::Dd,
        Kind::Prefix,
        Kind::Text,
        Kind::Hatch,
        Kind::HatchWithStrings,
        Kind::Reader,
    ];

    fn as_str(self) -> &'static str {
        match self {
            Kind::Unknown => "unknown",
            Kind::B => "b",
            Kind::Bb => "bb",
            Kind::ThreeB => "3b",
            Kind::Bs => "bs",
            Kind::BsU => "bsu",
            Kind::Bl => "bl",
            Kind::BlU => "blu",
            Kind::BdBits => "bd",
            Kind::Bll => "bll",
            Kind::Rc => "rc",
            Kind::Rs => "rs",
            Kind::Rl => "rl",
            Kind::RdBits => "rd",
            Kind::Handle => "handle",
            Kind::DdBits => "dd",
            Kind::Bd => "bd f64",
            Kind::Rd => "rd f64",
            Kind::Dd => "dd f64",
            Kind::Prefix => "prefix",
            Kind::Text => "tv",
            Kind::Hatch => "hatch",
            Kind::HatchWithStrings => "hatchs",
            Kind::Reader => "reader",
        }
    }
}

impl From<u64> for Kind {
    fn from(number: u64) -> Kind {
        Kind::ALL
            .into_iter()
            .find(|kind| *kind as u64 == number)
            .unwrap_or(Kind::Unknown)
    }
}

impl fmt::Display for Kind {
    fn fmt<W: fmt::Write>(&self, f: &mut fmt::Formatter<W>) -> fmt::Result {
        f.pad(self.as_str())
    }
}

// What the programs call a request's number: a kind by its name, 24 the cursor, whose count stands there, and a greater number by none.
#[derive(Clone, Copy, Debug, PartialEq, Eq)]
pub struct Name(pub u64);

impl fmt::Display for Name {
    fn fmt<W: fmt::Write>(&self, f: &mut fmt::Formatter<W>) -> fmt::Result {
        match self.0 {
            0..=23 => Kind::from(self.0).fmt(f),
            24 => f.pad("cursor"),
            _ => Ok(()),
        }
    }
}
