// The requests for an inline text: the call, and the text with its units.
use stored::answers::Answer;
use stored::record::Record;
use stored::texts;

pub fn answer(record: &Record) -> Answer {
    let s = record.payload;
    let reading = text::read_tv(s, record.start, record.release);
    Answer::of(reading, |answer, t| texts::put(answer, s, t))
}
