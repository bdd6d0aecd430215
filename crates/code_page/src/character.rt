// One entry of a text, a byte or a 16-bit unit: what converting asks of it, either way.
ghost use Rattle.std.specs.Prelude.{◌≡◌, Bool, IsTrue, Option, Some, is_some, IsSome};

use crate::table::Table;

pub trait Character: Copy {
    // The entry on the other side.
    type Other: Copy;

    // What an entry stands for, if anything.
    ghost mapped: { Self → Option Self.Other };

    // Whether it is mapped to the same number.
    ghost is_own: { Self → Bool };

    fn is_own(self) -> bool
        ensures { result ≡ is_own self };

    fn own(self) -> Self::Other
        requires { IsTrue (is_own self) }
        ensures { mapped self ≡ Some result };

    fn is_defined(self, table: &Table) -> bool
        ensures { result ≡ is_some (mapped self) };

    fn by_table(self, table: &Table) -> Self::Other
        requires { IsSome (mapped self) }
        ensures { mapped self ≡ Some result };
}
