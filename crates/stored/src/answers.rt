// The answers of the calls as the numbers that the list has: signed ones in two's complement, doubles as their 64 bits.
ghost use Rattle.std.specs.Prelude.{◌≡◌, ◌≤◌};

use bitcursor::{Handle, Places, Reading, Refusal, Refused, values};

// Room for the numbers of an answer.
const ROOM: usize = 1024;

// How many numbers open it: the refusal or 0, the place, the second place, which is 0 without a string reader, and how many values follow.
const HEAD: usize = 4;

// An answer as numbers. What there is no room for is dropped, as no answer of the list is so long. The memory is fixed, as everywhere below the
// programs: so it is an array with its count, and no Vec.
#[derive(Drop)]
pub struct Answer {
    numbers: [u64; ROOM],
    count: usize,
    ghost within: { (4 ≤ count) × (count ≤ 1024) },
}

impl Answer {
    fn open(refusal: u64, place: usize, second: usize) -> Answer
        ensures { result.count ≡ 4 }
    {
        let mut numbers = [0; ROOM];
        numbers[0] = refusal;
        numbers[1] = place as u64;
        numbers[2] = second as u64;
        Answer {
            numbers,
            count: HEAD,
        }
    }

    // A refusal at two places.
    pub fn refused(refusal: Refusal, place: usize, second: usize) -> Answer
        ensures { result.count ≡ 4 }
    {
        Answer::open(u64::from(u8::from(refusal)), place, second)
    }

    // What was read, up to two places; its values are to be pushed.
    pub fn read(place: usize, second: usize) -> Answer
        ensures { result.count ≡ 4 }
    {
        Answer::open(0, place, second)
    }

    // Puts a value behind the others, if there is room; those that were there stay.
    pub fn push<T: Into<u64>>(&mut self, value: T)
        ensures { self.old.count ≤ self.new.count }
    {
        let at = self.count;
        let number = value.into();
        if at < ROOM {
            self.numbers[at] = number;
            self.numbers[3] = (at + 1 - HEAD) as u64;
            self.count = at + 1;
        }
    }

    // Puts these values behind the others.
    pub fn extend<T: Copy + Into<u64>>(&mut self, values: &[T]) {
        for value in values {
            self.push(*value);
        }
    }

    // Takes the room that is left, so that nothing more is kept.
    pub fn fill(&mut self) {
        self.count = ROOM;
    }

    // Whether no value more is kept.
    pub fn is_full(&self) -> bool {
        self.count == ROOM
    }

    pub fn as_slice(&self) -> &[u64] {
        &self.numbers[..self.count]
    }
}

// A value as the numbers that the list has of it.
pub trait Values {
    fn put(self, answer: &mut Answer);
}

// One impl for each type: one over `Into<u64>` and one over `Into<i64>` would both be of bool, and two impls of a trait may not meet in a type.
impl Values for u64 {
    fn put(self, answer: &mut Answer) {
        answer.push(self);
    }
}

impl Values for bool {
    fn put(self, answer: &mut Answer) {
        answer.push(self);
    }
}

impl Values for i16 {
    fn put(self, answer: &mut Answer) {
        answer.push(i64::from(self).cast_unsigned());
    }
}

impl Values for i32 {
    fn put(self, answer: &mut Answer) {
        answer.push(i64::from(self).cast_unsigned());
    }
}

impl Values for f64 {
    fn put(self, answer: &mut Answer) {
        answer.push(values::bits_of(self));
    }
}

impl Values for Handle {
    fn put(self, answer: &mut Answer) {
        answer.push(self.code);
        answer.push(self.counter);
        answer.push(self.value);
    }
}

impl From<Refused> for Answer {
    fn from(refused: Refused) -> Answer {
        Answer::refused(refused.refusal, refused.place, 0)
    }
}

impl From<Refused<Places>> for Answer {
    fn from(refused: Refused<Places>) -> Answer {
        let places = refused.place;
        Answer::refused(refused.refusal, places.main, places.string)
    }
}

impl Answer {
    // The answer of a reading without a string reader; `put` puts its value. That it is always callable is a clause, since no bound says it of a closure's
    // type.
    pub fn of<T, F: FnOnce(&mut Answer, T)>(reading: Reading<T>, put: F) -> Answer
        requires { F.IsAlwaysCallable put }
    {
        match reading {
            Ok((value, place)) => {
                let mut answer = Answer::read(place, 0);
                put(&mut answer, value);
                answer
            }
            Err(refused) => Answer::from(refused),
        }
    }
}

impl<T: Values> From<Reading<T>> for Answer {
    fn from(reading: Reading<T>) -> Answer {
        Answer::of(reading, |answer, value| value.put(answer))
    }
}
