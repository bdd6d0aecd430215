// The requests for a hatch body, with a string reader and without: the call, and its answer as a list of numbers, in the order of the
// Rust's answer. Both lent lists are filled with a value of their own before the call, so that an entry that must not change shows it.
use crate::entries::Lists;
use crate::{fields, seeds};
use bitcursor::{Places, Refused};
use hatch::Strings;
use hatch_format::HatchBits;
use stored::answers::Answer;
use stored::kinds::Kind;
use stored::record::Record;

// Calls the hatch with lists of the lent lengths; none where there are not so many entries to lend.
fn call(
    record: &Record,
    strings: &[u8],
    lists: &mut Lists,
) -> Option<Result<HatchBits, Refused<Places>>> {
    let words = lists.words.get_mut(..record.lent_words)?;
    let numbers = lists.numbers.get_mut(..record.lent_numbers)?;
    let (main, start, release) = (record.payload, record.start, record.release);
    let reader = Strings {
        bytes: strings,
        start: record.more as usize,
        end: record.string_end,
    };
    match record.kind {
        Kind::Hatch => Some(hatch::decode(main, start, release, numbers, words)),
        Kind::HatchWithStrings => {
            let lent = Some(reader);
            Some(hatch::decode_with_strings(main, start, lent, release, numbers, words))
        }
        _ => None,
    }
}

// A reading: the record, and the entries used of both lists; none where the room is full or the seed points' part is another one.
fn of_reading(record: &Record, h: &HatchBits, words: &[u32], numbers: &[u64]) -> Option<Answer> {
    if !seeds::hold(numbers, h) {
        return None;
    }
    let mut answer = Answer::read(h.places.main, h.places.string);
    fields::put(&mut answer, record, h);
    answer.extend(words);
    answer.extend(numbers);
    if answer.is_full() { None } else { Some(answer) }
}

// The answer, if no entry past the lengths used has changed: on a refusal none may.
fn of_call(
    record: &Record,
    called: Result<HatchBits, Refused<Places>>,
    lists: &Lists,
) -> Option<Answer> {
    match called {
        Ok(h) if lists.are_old_behind(h.words_used, h.numbers_used) => {
            let words = lists.words.get(..h.words_used)?;
            let numbers = lists.numbers.get(..h.numbers_used)?;
            of_reading(record, &h, words, numbers)
        }
        Err(refused) if lists.are_old_behind(0, 0) => Some(Answer::from(refused)),
        _ => None,
    }
}

pub fn answer(record: &Record) -> Option<Answer> {
    let strings = record.strings?;
    let mut lists = Lists::old();
    let called = call(record, strings, &mut lists)?;
    of_call(record, called, &lists)
}
