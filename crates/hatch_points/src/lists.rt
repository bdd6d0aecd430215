// The lent lists: how far they are used, and a store where there is room.
ghost use Rattle.std.specs.Prelude.{◌≡◌, ◌+◌, ◌^◌, ◌<◌, set};
ghost use Rattle.hatch_points.specs.Lists.{with_numbers, with_words};

use bitcursor::values::Number;

// The lengths used of the numbers and of the words, and whether a path came from a boundary object.
#[derive(Clone, Copy, Debug, PartialEq, Eq)]
pub struct Sizes {
    pub numbers: usize,
    pub words: usize,
    pub derived: bool,
}

impl Sizes {
    // n numbers more. One for each field, since a field is no parameter.
    pub fn with_numbers(self, n: usize) -> Sizes
        requires { self.numbers + n < 2 ^ 64 }
        ensures { result ≡ with_numbers self n }
    {
        Sizes {
            numbers: self.numbers + n,
            ..self
        }
    }

    // n words more.
    pub fn with_words(self, n: usize) -> Sizes
        requires { self.words + n < 2 ^ 64 }
        ensures { result ≡ with_words self n }
    {
        Sizes {
            words: self.words + n,
            ..self
        }
    }
}

// The two lists that a caller lends, which a walk fills.
// Payload, place and lengths used go side by side, and `Ready` ties them in each walk's clause. A struct of the three that keeps it as a ghost field was
// tried, and proves; but each answer must then say that its payload is still the same, each `?` carries that on (a curve's proof has 62 lines then, not 51,
// a run's 39, not 31), and a step writes out all three, since no `..walk` may stand beside a ghost field.
// No impl Model: its Value would hide which two references these are, and the caller that lends them could not say what was stored.
#[derive(Drop)]
pub struct Lent<'a, N> {
    pub numbers: &'a mut [N],
    pub words: &'a mut [u32],
}

// A number, if the list has room for it. This and the next are two, since what is stored is made of u64 in two ways: a function over the entry would be
// a third, and these would still be here to call it.
pub fn put_number<N: Number>(numbers: &mut [N], at: usize, v: u64)
    ensures { numbers.new ≡ set numbers.old at (N.of_bits v) }
{
    if at < numbers.len() {
        numbers[at] = N::from_bits(v);
    }
}

// A word, likewise.
pub fn put_word(words: &mut [u32], at: usize, w: u64)
    requires { w < 2 ^ 32 }
    ensures { words.new ≡ set words.old at w }
{
    if at < words.len() {
        words[at] = w as u32;
    }
}
