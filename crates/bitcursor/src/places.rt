// Readings of one payload among two: the place in the other stays.
ghost use Rattle.std.specs.Prelude.{◌≡◌};
ghost use Rattle.bitcursor.specs.Answers.{outcome};
ghost use Rattle.bitcursor.specs.Fields.{lifted, main, string};

use crate::{Reading, refuse};

// A place in each payload, in bits; without a string reader the second is 0.
#[derive(Clone, Copy, Debug, PartialEq, Eq)]
pub struct Places {
    pub main: usize,
    pub string: usize,
}

impl Places {
    // These places, with the main one where a reading of the main payload ended.
    pub fn after_main<T>(self, read: Reading<T>) -> Reading<T, Places>
        ensures { outcome result ≡ lifted main self (outcome read) }
    {
        let string = self.string;
        match read {
            Ok((value, main)) => Ok((value, Places { main, string })),
            Err(e) => refuse(
                e.refusal,
                Places {
                    main: e.place,
                    string,
                },
            ),
        }
    }

    // The same of the string payload: which field is set is no parameter, and a closure that sets it would be longer than the match.
    pub fn after_string<T>(self, read: Reading<T>) -> Reading<T, Places>
        ensures { outcome result ≡ lifted string self (outcome read) }
    {
        let main = self.main;
        match read {
            Ok((value, string)) => Ok((value, Places { main, string })),
            Err(e) => refuse(
                e.refusal,
                Places {
                    main,
                    string: e.place,
                },
            ),
        }
    }
}
