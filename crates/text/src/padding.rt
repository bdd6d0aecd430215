// Whether the units of a text that are all there end in a zero, which is dropped.
ghost use Rattle.std.specs.Prelude.{◌≡◌, ◌+◌, ◌-◌, ◌*◌, ◌≤◌, length};
ghost use Rattle.loads.specs.Bytes.{bytes_at, low_number};
ghost use Rattle.text.specs.Units.{units_at};
ghost use Rattle.text.specs.Texts.{ends_in_zero};

use bitcursor::Payload;

// Unit i of the units of k bytes at `at`.
fn unit_at(s: &Payload, at: usize, k: usize, i: usize) -> u64
    requires { (1 ≤ k) × ((k ≤ 2) × (8 * (k * (i + 1)) ≤ 8 * length s.now - at)) }
    ensures { result ≡ low_number (bytes_at s.now (at + 8 * (k * i)) k) }
{
    // A size is at most the limit, so that no place in it overflows.
    let _ = s.size();
    let before = k * i;
    loads::low_at(s, at + 8 * before, k)
}

// Whether the last of the n units of k bytes at `at` is a zero.
pub fn is_padded(s: &Payload, at: usize, k: usize, n: usize) -> bool
    requires { (1 ≤ k) × ((k ≤ 2) × (8 * (k * n) ≤ 8 * length s.now - at)) }
    ensures { result ≡ ends_in_zero (units_at s.now at k n) }
{
    if n == 0 {
        return false;
    }
    unit_at(s, at, k, n - 1) == 0
}
