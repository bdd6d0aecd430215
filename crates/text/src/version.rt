// The seven releases that document 01 knows, and the test for "this release or a later one".
ghost use Rattle.std.specs.Prelude.{◌≡◌, leb};
ghost use Rattle.text.specs.Releases.{release_number, known, known_at, version_of};

use bitcursor::{Refusal, Refused};

// src/version.rs of dwg-rs; document 01's release numbers are 1 to 7 in this order.
#[derive(Clone, Copy, Debug, PartialEq, Eq, PartialOrd, Ord)]
pub enum Version {
    R14,
    R2000,
    R2004,
    R2007,
    R2010,
    R2013,
    R2018,
}

// The version of a release number; refusal 9 if it is none of the seven.
impl TryFrom<u64> for Version {
    type Error = Refusal;

    ghost try_from_gives = { λ release r. r ≡ known (version_of release) };

    fn try_from(release: u64) -> Result<Version, Refusal> {
        match release {
            1 => Ok(Version::R14),
            2 => Ok(Version::R2000),
            3 => Ok(Version::R2004),
            4 => Ok(Version::R2007),
            5 => Ok(Version::R2010),
            6 => Ok(Version::R2013),
            7 => Ok(Version::R2018),
            _ => Err(Refusal::UnknownRelease),
        }
    }
}

impl Version {
    // Document 01's number of a release. A method, and no From: `row_of` counts rows by it, and a bare `usize::from(v)` would not say which number of a
    // release it is.
    pub fn release_number(self) -> usize
        ensures { result ≡ release_number self }
    {
        match self {
            Version::R14 => 1,
            Version::R2000 => 2,
            Version::R2004 => 3,
            Version::R2007 => 4,
            Version::R2010 => 5,
            Version::R2013 => 6,
            Version::R2018 => 7,
        }
    }

    // The version of a release number; refusal 9 at the place if it is none of the seven.
    pub fn known_at<P: Copy>(release: u64, place: P) -> Result<Version, Refused<P>>
        ensures { result ≡ known_at (version_of release) place }
    {
        Version::try_from(release).map_err(|refusal| Refused { refusal, place })
    }

    // Whether this is the release or a later one: the Rust's `is_r2004_plus`, `is_r2007_plus` and `is_r2010_plus`.
    pub fn is_from(self, first: Version) -> bool
        ensures { result ≡ leb (release_number first) (release_number self) }
    {
        first <= self
    }
}
