// Replays the Rust's answers for codes, texts and prefixes through the Rattle calls and compares: src/bitcursor.rs, src/tables/mod.rs
// (`read_tv`), src/string_stream.rs and src/common_entity.rs of dwg-rs. Crate `hatch_vectors` replays those for hatch bodies.
// data/list has the requests with the Rust's answers, data/packed those of this program as 64-bit items; oracle/pack makes both.
// It promises nothing of its own: it tests that the definitions, which the calls' contracts equate with, answer as the Rust does.
#![tactic(auto)]

mod codes;
mod cursors;
mod prefixes;
mod readers;
mod texts;

use bitcursor::{Reading, Refusal, Refused};
use std::{fs, io};
use stored::answers::Answer;
use stored::kinds::Kind;
use stored::record::Record;
use stored::replay;
use stored::replay::Calls;

// What was read up to a place, or the refusal there.
fn reading<T>(ended: Result<T, Refusal>, place: usize) -> Reading<T> {
    match ended {
        Ok(value) => Ok((value, place)),
        Err(refusal) => Err(Refused { refusal, place }),
    }
}

// The calls of codes, texts and prefixes.
struct Given;

impl Calls for Given {
    // The answer of the call that the record asks for. A match and no table, as in `codes`.
    fn answer(&self, record: &Record) -> Option<Answer> {
        match record.kind {
            Kind::Prefix => Some(prefixes::answer(record)),
            Kind::Text => Some(texts::answer(record)),
            Kind::Reader => readers::answer(record),
            _ => codes::answer(record),
        }
    }

    fn lent(&self, record: &Record) -> Option<Answer> {
        cursors::answer(record)
    }
}

fn main(rt: HostRuntime) -> io::Result<()> {
    let mut file = fs::open(&rt, "packed")?;
    replay::replay_all(&mut file, &mut io::writer(&rt), &Given)
}
