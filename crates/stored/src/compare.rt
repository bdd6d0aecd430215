// Whether the answer that was found is the stored one.
ghost use Rattle.std.specs.Prelude.{◌+◌, ◌*◌, ◌≤◌, length};
ghost use Rattle.stored.specs.Items.{Agree, SameAnswer};

use crate::items::item;

// Whether the items from byte `at` are the numbers of `found`.
pub fn same(s: &[u8], at: usize, found: &[u64]) -> bool
    requires { at + 8 * length found.now ≤ length s.now }
    ensures { Agree s.now at found.now (length found.now) result }
{
    for (k, number) in found.iter().enumerate() {
        if item(s, at + 8 * k) != *number {
            return false;
        }
    }
    true
}

// Whether the answer stored from byte `at` to the end of the record is the numbers of `found`.
pub fn same_answer(s: &[u8], at: usize, found: &[u64]) -> bool
    requires { at ≤ length s.now }
    ensures { SameAnswer s.now at found.now (length found.now) result }
{
    (s.len() - at) / 8 == found.len() && same(s, at, found)
}
