// The stored answers of the Rust as the programs that replay them read them: records of 64-bit items (data/packed, which oracle/pack makes of
// crates/vectors/data/list), the answer of a call as a list of numbers, and what is written of a comparison.
// specs/ promises that a found answer is called the stored one exactly where every number agrees.
#![tactic(auto)]

ghost use Rattle.std.specs.Prelude.{◌≡◌, length};
ghost use Rattle.stored.specs.Counts.{IsPrefixLen};

use std::io::Read;

pub mod answers;
pub mod compare;
pub mod items;
pub mod kinds;
pub mod record;
pub mod replay;
pub mod report;
pub mod texts;

// 65,536 zeros, room for the items of a record: an array and no Vec, since the memory of a replay is fixed. The `ensures` gives only the length,
// which lending the array as a slice needs.
pub fn large_buffer() -> [u8; 65536]
    ensures { 65536 ≡ length result }
{
    [0; 65536]
}

// Reads until `s` is full, the input ends or a read fails, and returns how many bytes it put at the start of `s`. A read says how far it came: so the
// loop goes by bytes, and `read_exact` would not say how many there were.
pub fn read_full<R: Read>(file: &mut R, s: &mut [u8]) -> usize
    ensures { IsPrefixLen result s.new }
{
    let mut done = 0;
    while done < s.len() {
        let n = file.read(&mut s[done..]).unwrap_or(0);
        if n == 0 {
            break;
        }
        done += n;
    }
    done
}

// Reads the items of a record, if there is room for so many; the number of bytes read.
pub fn read_items<R: Read>(file: &mut R, s: &mut [u8], count: u64) -> usize
    ensures { IsPrefixLen result s.new }
{
    let room = (s.len() / 8) as u64;
    if room < count {
        return 0;
    }
    let end = 8 * (count as usize);
    read_full(file, &mut s[0..end])
}
