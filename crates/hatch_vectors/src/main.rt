// Replays the Rust's answers for hatch bodies through the Rattle calls and compares: src/entities/hatch.rs of dwg-rs. Crate `vectors`
// replays those for codes, texts and prefixes.
// data/packed has the requests of crates/vectors/data/list with the Rust's answers, as 64-bit items; oracle/pack makes it.
// It promises nothing of its own: it tests that the definitions, which the calls' contracts equate with, answer as the Rust does.
#![tactic(auto)]

mod entries;
mod fields;
mod hatches;
mod seeds;

use std::{fs, io};
use stored::answers::Answer;
use stored::record::Record;
use stored::replay;
use stored::replay::Calls;

// The calls of hatch bodies; no cursor is lent to them.
struct Bodies;

impl Calls for Bodies {
    fn answer(&self, record: &Record) -> Option<Answer> {
        hatches::answer(record)
    }
}

fn main(rt: HostRuntime) -> io::Result<()> {
    let mut file = fs::open(&rt, "packed")?;
    replay::replay_all(&mut file, &mut io::writer(&rt), &Bodies)
}
