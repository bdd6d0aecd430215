// Going through a packed list: each record is answered by the program's calls, and the answer compared with the stored one.
use crate::answers::Answer;
use crate::compare::same_answer;
use crate::items::item;
use crate::record::Record;
use crate::report::{Counts, Found};
use crate::{large_buffer, read_full, read_items, report};
use std::io;
use std::io::{Read, Write};

// Compares an answer with the record's, and writes a difference; no answer is one.
fn judged<W: Write>(out: &mut W, record: &Record, answer: Option<Answer>) -> io::Result<Found> {
    let number = record.number;
    match answer {
        Some(answer) => {
            let found = answer.as_slice();
            if same_answer(record.answer, 0, found) {
                return Ok(Found::Same(number));
            }
            report::difference(out, record, found)?;
        }
        None => report::difference(out, record, &[])?,
    }
    Ok(Found::Differs(number))
}

// The calls of a program, on a record: the answer, and where that is the stored one the answer by a lent cursor, which most kinds have none of.
pub trait Calls {
    fn answer(&self, record: &Record) -> Option<Answer>;

    fn lent(&self, _record: &Record) -> Option<Answer> {
        None
    }
}

// Replays a record by the program's calls.
fn replay<W: Write, C: Calls>(out: &mut W, record: &Record, calls: &C) -> io::Result<Found> {
    let number = record.number;
    let found = judged(out, record, calls.answer(record))?;
    if found != Found::Same(number) {
        return Ok(found);
    }
    let Some(second) = calls.lent(record) else {
        return Ok(found);
    };
    match judged(out, record, Some(second))? {
        Found::Same(number) => Ok(Found::Lent(number)),
        differs => Ok(differs),
    }
}

// The next record, the index-th, read into `space`, and the counts with it; whether to go on.
fn step<R: Read, W: Write, C: Calls>(
    file: &mut R,
    out: &mut W,
    space: &mut [u8],
    index: u64,
    counts: &mut Counts,
    calls: &C,
) -> io::Result<bool> {
    // An array and no Vec, since the memory of a replay is fixed.
    let mut first = [0u8; 8];
    if read_full(file, &mut first) == 0 {
        return Ok(false);
    }
    let items = item(&first, 0);
    let n = read_items(file, space, items);
    let Some(record) = Record::parse(&space[..n], items) else {
        report::malformed(out, index)?;
        counts.add(Found::Malformed);
        return Ok(false);
    };
    counts.add(replay(out, &record, calls)?);
    Ok(true)
}

// Every record, and then what was compared. A loop has to end, and nothing says that a file does: so it stops after a million.
// The room for a record is made once, since its zeros cost more than a record does.
pub fn replay_all<R: Read, W: Write, C: Calls>(
    file: &mut R,
    out: &mut W,
    calls: &C,
) -> io::Result<()> {
    let mut counts = Counts::new();
    let mut space = large_buffer();
    for index in 1..1_000_000 {
        if !step(file, out, &mut space, index, &mut counts, calls)? {
            break;
        }
    }
    counts.write(out)
}
