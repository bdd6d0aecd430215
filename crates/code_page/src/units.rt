// Units, which come from bytes. Those below 80 and from A0 to FF (hexadecimal) are their own bytes; any other byte is looked for in the table.
ghost use Rattle.std.specs.Prelude.{◌≡◌, false};
ghost use Rattle.code_page.specs.Mapping.{byte_of};
ghost use Rattle.code_page.specs.Own.{is_own};

use crate::character::Character;
use crate::table::{Table, UNDEFINED};

impl Character for u16 {
    type Other = u8;

    ghost mapped = { byte_of };

    ghost is_own = { is_own };

    fn is_own(self) -> bool {
        (self < 0x80) | ((0xA0 <= self) & (self < 0x100))
    }

    #[tactic(auto, using(crate::proofs::OwnEntries::own_byte))]
    fn own(self) -> u8 {
        self as u8
    }

    #[tactic(auto, using(crate::proofs::OwnEntries::byte_there))]
    fn is_defined(self, table: &Table) -> bool {
        self.is_own() || byte_80_to_9f(table, self).is_some()
    }

    fn by_table(self, table: &Table) -> u8 {
        if self.is_own() {
            return self.own();
        }
        byte_80_to_9f(table, self).unwrap()
    }
}

// The byte of a unit that is not its own byte, if there is one: among bytes 80 to 9F (hexadecimal), by 32 comparisons.
// A loop over the bytes, and no `position`: that leaves at the first hit, so one comparison at a time; the last hit is the only one (`one_byte`).
#[tactic(auto, unfolding(crate::specs::Mapping::byte_of))]
fn byte_80_to_9f(table: &Table, unit: u16) -> Option<u8>
    requires { is_own unit ≡ false }
    ensures { result ≡ byte_of unit }
{
    if unit == UNDEFINED {
        return None;
    }
    let mut found = None;
    for byte in 0x80..0xA0u8 {
        if table.units[byte as usize] == unit {
            found = Some(byte);
        }
    }
    found
}
