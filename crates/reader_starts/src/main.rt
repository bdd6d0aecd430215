// Makes the reader that holds its payload at every start bit of short payloads: `StringReader::new` and `seek` of src/string_stream.rs of dwg-rs.
// It writes where the readers stand, or the refusal and its place, a line for each run of starts; its file stdout is what the Rust writes of the
// same. It promises nothing of its own: it tests that the reader starts where the Rust's does (oracle/starts makes the Rust's lines anew).
#![tactic(auto)]

use bitcursor::{Refusal, Refused};
use std::io;
use std::io::Write;
use string_reader::StringReader;

// The longest payload in bytes, and how many bits past a payload's end its starts go.
const LONGEST: usize = 40;

const BITS_PAST: usize = 64;

// A text of one unit: length 1 by code 01, and the unit 0041, low byte first.
const TEXT: u32 = 0x0101_4100;

const TEXT_BITS: usize = 26;

// What lies in a payload: zeros alone, ones alone, or a text at the start, as much of it as there is room for, and zeros elsewhere.
#[derive(Clone, Copy, Debug, PartialEq, Eq)]
enum Laid {
    Zeros,
    Ones,
    Text,
}

// How a reader starts, whatever lies in the payload; `Differs` where that matters.
#[derive(Clone, Copy, Debug, PartialEq, Eq)]
enum Started {
    There,
    Elsewhere(usize),
    Refused(Refusal, usize),
    Differs,
}

fn lay_text(bytes: &mut [u8], start: usize) {
    for i in 0..TEXT_BITS {
        let bit = start.saturating_add(i);
        if TEXT >> (TEXT_BITS - 1 - i) & 1 == 1 {
            if let Some(byte) = bytes.get_mut(bit / 8) {
                *byte |= 0x80 >> (bit % 8);
            }
        }
    }
}

fn make_reader(bytes: &mut [u8], start: usize, laid: Laid) -> Started {
    bytes.fill(if laid == Laid::Ones { 0xff } else { 0 });
    if laid == Laid::Text {
        lay_text(bytes, start);
    }
    match StringReader::new(bytes, start, bytes.len().saturating_mul(8)) {
        Ok(reader) if reader.position_bits() == start => Started::There,
        Ok(reader) => Started::Elsewhere(reader.position_bits()),
        Err(e) => Started::Refused(e.refusal, e.place),
    }
}

fn make_readers(bytes: &mut [u8], start: usize) -> Started {
    let zeros = make_reader(bytes, start, Laid::Zeros);
    let ones = make_reader(bytes, start, Laid::Ones);
    let text = make_reader(bytes, start, Laid::Text);
    if zeros == ones && ones == text {
        text
    } else {
        Started::Differs
    }
}

// A line of starts that are alike.
fn write_line<W: Write>(
    out: &mut W,
    bytes: usize,
    from: usize,
    to: usize,
    how: Started,
) -> io::Result<()> {
    write!(out, "{bytes} bytes, starts {from} to {to}: ")?;
    match how {
        Started::There => writeln!(out, "ok, each there"),
        Started::Elsewhere(place) => writeln!(out, "ok {place}"),
        Started::Refused(refusal, place) => writeln!(out, "err {} {place}", u8::from(refusal)),
        Started::Differs => writeln!(out, "not the same whatever lies in the payload"),
    }
}

// Every start of a payload. Lengths in bits are saturated, here and above, since this program proves no bound of them.
fn write_starts<W: Write>(out: &mut W, bytes: &mut [u8]) -> io::Result<()> {
    let length = bytes.len();
    let last = length.saturating_mul(8).saturating_add(BITS_PAST);
    let mut from = 0;
    let mut how = make_readers(bytes, from);
    for before in 0..last {
        let next = make_readers(bytes, before + 1);
        if next != how {
            write_line(out, length, from, before, how)?;
            from = before + 1;
            how = next;
        }
    }
    write_line(out, length, from, last, how)
}

fn main(rt: HostRuntime) -> io::Result<()> {
    let mut out = io::writer(&rt);
    let mut bytes = [0; LONGEST];
    for length in 0..LONGEST + 1 {
        write_starts(&mut out, &mut bytes[..length])?;
    }
    Ok(())
}
