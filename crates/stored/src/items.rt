// The items of the packed list: eight bytes each, the low one first.
ghost use Rattle.std.specs.Prelude.{◌≡◌, ◌+◌, ◌≤◌, length};
ghost use Rattle.stored.specs.Items.{item_at};

// The item whose first byte is byte `at`. What crate loads has of its own kind is not public, and is the same call of std's `first_chunk`.
#[tactic(auto, using(crate::proofs::Bytes::from_eight))]
pub fn item(s: &[u8], at: usize) -> u64
    requires { at + 8 ≤ length s.now }
    ensures { result ≡ item_at s.now at }
{
    u64::from_le_bytes(*s[at..at + 8].first_chunk().unwrap())
}
