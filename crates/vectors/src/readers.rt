// The text of a hatch body with a string reader, by a reader made for it on the body's strings: the text, or its refusal, and the reader's
// position afterwards. oracle/pack.rs says of which bodies the Rust's answer has both.
use stored::answers::Answer;
use stored::record::Record;
use stored::texts;
use string_reader::readings;
use string_reader::readings::NextText;

// Whether the reader's questions are answered by its position and its end bit.
fn is_consistent(n: NextText, end: usize) -> bool {
    n.exhausted == (end <= n.position) && n.remaining == end.saturating_sub(n.position)
}

// The text and the position after it, or the refusal of the start, or else of the text; none where the reader's questions are answered
// otherwise.
pub fn answer(record: &Record) -> Option<Answer> {
    let strings = record.payload;
    let end = record.more as usize;
    let n = readings::next_text(strings, record.start, end);
    if !is_consistent(n, end) {
        return None;
    }
    let reading = crate::reading(n.start.and(n.text), n.position);
    Some(Answer::of(reading, |answer, t| {
        texts::put(answer, strings, t);
    }))
}
