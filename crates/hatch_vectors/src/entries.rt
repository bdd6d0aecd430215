// The lists that are lent, and what their entries hold before a call, so that one that must not change shows it. Arrays and no Vec, since the memory
// of a replay is fixed.

// How many entries there are to lend of each list.
const LENT: usize = 512;

// What an entry holds before the call.
const OLD_WORD: u32 = 0xa5a5_a5a5;

const OLD_NUMBER: u64 = 0xa5a5_a5a5_a5a5_a5a5;

#[derive(Drop)]
pub struct Lists {
    pub words: [u32; LENT],
    pub numbers: [u64; LENT],
}

impl Lists {
    // The lists before a call.
    pub fn old() -> Lists {
        Lists {
            words: [OLD_WORD; LENT],
            numbers: [OLD_NUMBER; LENT],
        }
    }

    // Whether all entries behind the first so many of each are as they were before the call.
    pub fn are_old_behind(&self, words: usize, numbers: usize) -> bool {
        let mut words = self.words.iter().skip(words);
        let mut numbers = self.numbers.iter().skip(numbers);
        words.all(|word| *word == OLD_WORD) && numbers.all(|number| *number == OLD_NUMBER)
    }
}
