// Whether the units of a text that are all there are valid UTF-16.
ghost use Rattle.std.specs.Prelude.{◌≡◌, false, ◌-◌, ◌*◌, ◌≤◌, length};
ghost use Rattle.text.specs.Units.{units_at};
ghost use Rattle.text.specs.Utf16.{high, low, paired_from};

use bitcursor::Payload;

// D800 to DBFF.
fn is_high(u: u64) -> bool
    ensures { result ≡ high u }
{
    0xd800 <= u && u <= 0xdbff
}

// DC00 to DFFF.
fn is_low(u: u64) -> bool
    ensures { result ≡ low u }
{
    0xdc00 <= u && u <= 0xdfff
}

// Whether the n units of two bytes at `at` are valid UTF-16, in one pass.
pub fn is_utf16(s: &Payload, at: usize, n: usize) -> bool
    requires { 16 * n ≤ 8 * length s.now - at }
    ensures { result ≡ paired_from false (units_at s.now at 2 n) }
{
    // A size is at most the limit, so that no place in it overflows.
    let _ = s.size();
    let mut half = false;
    for i in 0..n {
        let u = loads::low_at(s, at + 16 * i, 2);
        let l = is_low(u);
        if l != half {
            return false;
        }
        half = is_high(u);
    }
    !half
}
