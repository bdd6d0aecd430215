// Bytes, which stand for units. Those below 80 and from A0 up (hexadecimal) are their own.
ghost use Rattle.code_page.specs.Mapping.{unit_of};
ghost use Rattle.code_page.specs.Own.{is_own};

use crate::character::Character;
use crate::table::{Table, UNDEFINED};

impl Character for u8 {
    type Other = u16;

    ghost mapped = { unit_of };

    ghost is_own = { is_own };

    #[tactic(auto, using(crate::proofs::OwnEntries::own_of_byte))]
    fn is_own(self) -> bool {
        (self < 0x80) | (0xA0 <= self)
    }

    #[tactic(auto, using(crate::proofs::OwnEntries::own_unit))]
    fn own(self) -> u16 {
        u16::from(self)
    }

    #[tactic(auto, using(crate::specs::Facts::defined_entry))]
    fn is_defined(self, table: &Table) -> bool {
        table.units[self as usize] != UNDEFINED
    }

    #[tactic(auto, using(crate::specs::Facts::known_unit))]
    fn by_table(self, table: &Table) -> u16 {
        table.units[self as usize]
    }
}
