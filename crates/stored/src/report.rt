// What replaying a record finds, what is counted of it, and what the program writes: a line for each difference, and what was compared.
use crate::items::item;
use crate::kinds::Name;
use crate::record::Record;
use std::io;
use std::io::Write;

// What replaying a record finds, with the number of its kind. `Lent` is the same answer twice, by value and by a lent cursor.
#[derive(Clone, Copy, Debug, PartialEq, Eq)]
pub enum Found {
    Same(u64),
    Lent(u64),
    Differs(u64),
    Malformed,
}

// Where the counts have the codes that were compared by a lent cursor too: behind the kinds.
const CURSOR: u64 = 24;

// How many requests were compared: of each number below 30, the codes by a lent cursor too at theirs, all, and those that differ. The counts are an array,
// by the number, and no map, since a map is on the heap.
#[derive(Drop)]
pub struct Counts {
    numbers: [u64; 30],
    compared: u64,
    differ: u64,
}

impl Counts {
    pub fn new() -> Counts {
        Counts {
            numbers: [0; 30],
            compared: 0,
            differ: 0,
        }
    }

    // One more of a number; a greater one has no count of its own.
    fn one(&mut self, number: u64) {
        if let Some(count) = self.numbers.get_mut(number as usize) {
            *count = count.saturating_add(1);
        }
    }

    fn compared(&mut self, number: u64) {
        self.one(number);
        self.compared = self.compared.saturating_add(1);
    }

    // Adds what replaying a record found.
    pub fn add(&mut self, found: Found) {
        match found {
            Found::Same(number) => self.compared(number),
            Found::Lent(number) => {
                self.compared(number);
                self.one(CURSOR);
            }
            Found::Differs(number) => {
                self.compared(number);
                self.differ = self.differ.saturating_add(1);
            }
            Found::Malformed => self.differ = self.differ.saturating_add(1),
        }
    }

    // How many requests of each number were compared, and the result.
    pub fn write<W: Write>(&self, out: &mut W) -> io::Result<()> {
        for (number, n) in self.numbers.iter().enumerate() {
            line(out, number as u64, *n)?;
        }
        let compared = self.compared;
        let differ = self.differ;
        writeln!(out, "vectors: {compared} compared, {differ} differ")
    }
}

fn line<W: Write>(out: &mut W, number: u64, n: u64) -> io::Result<()> {
    if n == 0 {
        return Ok(());
    }
    let name = Name(number);
    writeln!(out, "{name:<10}{n}")
}

// Behind a malformed record nothing says where the next begins.
pub fn malformed<W: Write>(out: &mut W, index: u64) -> io::Result<()> {
    writeln!(out, "differs: record {index} is malformed")
}

// A difference: the request, the stored answer, the answer found.
pub fn difference<W: Write>(out: &mut W, record: &Record, found: &[u64]) -> io::Result<()> {
    let line = record.line;
    let name = Name(record.number);
    write!(out, "differs: line {line} {name:<10} stored")?;
    for bytes in record.answer.as_chunks().0 {
        let number = u64::from_le_bytes(*bytes);
        write!(out, " {number}")?;
    }
    write!(out, " found")?;
    for number in found {
        write!(out, " {number}")?;
    }
    writeln!(out)
}
