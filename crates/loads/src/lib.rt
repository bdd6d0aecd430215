// Bits and bytes at any bit of a payload, as numbers: eight bits from one or two bytes, 64 bits as one word. What src/bitcursor.rs of dwg-rs
// reads by; document 01: "Bits run from the top bit of each byte; multi-byte numbers are low byte first".
// specs/ says what the bits, bytes and numbers of a payload are; each load promises the number of bits or bytes that its caller knows to be there.
#![tactic(auto)]

ghost use Rattle.std.specs.Prelude.{◌≡◌, ◌+◌, ◌-◌, ◌*◌, ◌/◌, ◌%◌, ◌^◌, ◌≤◌, ◌<◌, length, take, drop};
ghost use Rattle.loads.specs.Bits.{limit, number, window};
ghost use Rattle.loads.specs.Bytes.{low_number, bytes_at};

mod payload;

pub use payload::{LIMIT, Payload};

// The n bits at `at`. How many bits or bytes, and that they are there, is asked by each load: its caller has just compared, and a type that says it
// would be made for one call.
#[tactic(auto, using(crate::proofs::Parts::in_one, crate::proofs::Parts::in_two))]
pub fn bits_at(s: &[u8], at: usize, n: usize) -> u64
    requires { (1 ≤ n) × ((n ≤ 8) × (at + n ≤ 8 * length s.now)) }
    ensures { result ≡ number (window s.now at n) }
{
    let q = at / 8;
    let e = at % 8 + n;
    let b = u64::from(s[q]);
    if e <= 8 {
        return (b >> (8 - e)) % (1u64 << n);
    }
    let d = u64::from(s[q + 1]);
    ((b * 256 + d) >> (16 - e)) % (1u64 << n)
}

// The N bytes at q.
fn bytes<const N: usize>(s: &[u8], q: usize) -> [u8; N]
    requires { q + N ≤ length s.now }
    ensures { result ≡ take N (drop q s.now) }
{
    *s[q..q + N].first_chunk().unwrap()
}

// The 64 bits of the eight bytes at q.
#[tactic(auto, using(crate::proofs::LoadLaws::from_eight))]
fn eight_bytes(s: &[u8], q: usize) -> u64
    requires { q + 8 ≤ length s.now }
    ensures { result ≡ number (window s.now (8 * q) 64) }
{
    u64::from_be_bytes(bytes(s, q))
}

// The 64 bits at `at`.
#[tactic(auto, using(crate::proofs::LoadLaws::word_shift, crate::proofs::LoadLaws::window_lt))]
fn word_at(s: &[u8], at: usize) -> u64
    requires { at + 64 ≤ 8 * length s.now }
    ensures { result ≡ number (window s.now at 64) }
{
    let q = at / 8;
    let r = at % 8;
    let x = eight_bytes(s, q);
    if r == 0 {
        return x;
    }
    (x << r) + (u64::from(s[q + 8]) >> (8 - r))
}

// The n bytes at `at` as a number, the high one first, byte by byte. A function of its own, since most bytes are far from the payload's end:
// so what is compiled into the readers is `high_at` without this loop.
#[inline(never)]
#[tactic(auto, using(crate::proofs::LoadLaws::byte_by_byte))]
fn last_at(s: &[u8], at: usize, n: usize) -> u64
    requires { (length s.now ≤ limit) × ((1 ≤ n) × ((n ≤ 8) × (at + 8 * n ≤ 8 * length s.now))) }
    ensures { result ≡ number (window s.now at (8 * n)) }
{
    let mut v = 0;
    for i in 0..n {
        v = v * 256 + bits_at(s, at + i * 8, 8);
    }
    v
}

// The n bytes at `at` as a number, the high one first.
#[tactic(auto, using(crate::proofs::LoadLaws::word_first))]
pub fn high_at(s: &Payload, at: usize, n: usize) -> u64
    requires { (1 ≤ n) × ((n ≤ 8) × (at + 8 * n ≤ 8 * length s.now)) }
    ensures { result ≡ number (window s.now at (8 * n)) }
{
    if 64 <= s.size() - at {
        return word_at(s.bytes(), at) >> (64 - n * 8);
    }
    last_at(s.bytes(), at, n)
}

// The n bytes at `at` as a number, the low one first.
#[tactic(auto, using(crate::proofs::Swaps::low_shift))]
pub fn low_at(s: &Payload, at: usize, n: usize) -> u64
    requires { (1 ≤ n) × ((n ≤ 8) × (at + 8 * n ≤ 8 * length s.now)) }
    ensures { result ≡ low_number (bytes_at s.now at n) }
{
    high_at(s, at, n).swap_bytes() >> (64 - n * 8)
}

// The eight bytes at `at` as a number, the low one first. It asks for no length: for runs that are known to be there.
#[tactic(auto, using(crate::proofs::Swaps::low_word))]
pub fn eight_at(s: &[u8], at: usize) -> u64
    requires { at + 64 ≤ 8 * length s.now }
    ensures { result ≡ low_number (bytes_at s.now at 8) }
{
    word_at(s, at).swap_bytes()
}

// The bits from `at` to the end of the eighth byte, on top of the word.
#[tactic(auto, using(crate::proofs::LoadLaws::top_shift))]
pub fn top_at(s: &[u8], at: usize) -> u64
    requires { at / 8 + 8 ≤ length s.now }
    ensures { result ≡ number (window s.now at (64 - at % 8)) * 2 ^ (at % 8) }
{
    eight_bytes(s, at / 8) << (at % 8)
}

// The 64 bits behind the two at `at`; `top` is what `top_at` has there. Bytes, place and top are lent side by side: one reader alone has them
// (`read_bd_there`), and a struct of the three would be made and taken apart in it.
#[tactic(auto, using(crate::proofs::LoadLaws::from_two, crate::proofs::LoadLaws::top_behind, crate::proofs::LoadLaws::window_lt))]
fn word_behind(s: &[u8], at: usize, top: u64) -> u64
    requires { (at / 8 + 10 ≤ length s.now) × (top ≡ number (window s.now at (64 - at % 8)) * 2 ^ (at % 8)) }
    ensures { result ≡ number (window s.now (at + 2) 64) }
{
    let last = u64::from(u16::from_be_bytes(bytes(s, at / 8 + 8)));
    (top << 2) + (last >> (14 - at % 8))
}

// The eight bytes behind the two bits at `at`, the low one first; `top` is what `top_at` has there.
#[tactic(auto, using(crate::proofs::Swaps::low_word))]
pub fn low_behind(s: &[u8], at: usize, top: u64) -> u64
    requires { (at / 8 + 10 ≤ length s.now) × (top ≡ number (window s.now at (64 - at % 8)) * 2 ^ (at % 8)) }
    ensures { result ≡ low_number (bytes_at s.now (at + 2) 8) }
{
    word_behind(s, at, top).swap_bytes()
}
