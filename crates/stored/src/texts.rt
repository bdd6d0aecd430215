// A text's answer as a list of numbers. The calls say where the units lie and how many they are, and no unit itself: so the units are read
// here, one after the other, by the codes RC and RS.
ghost use Rattle.std.specs.Prelude.{◌≤◌};

use crate::answers::Answer;
use text::Text;

// Stands for a unit that cannot be read; no unit is so large.
const NO_UNIT: u64 = 0x1_0000;

// No answer has room for so many units.
const MOST_UNITS: usize = 1024;

// The unit at `at` and the place after it. An RS is signed and a unit is not: its 16 bits are the unit.
fn unit(s: &[u8], at: usize, width: u8) -> Option<(u64, usize)> {
    if width == 16 {
        let (v, p) = bit_codes::read_rs(s, at).ok()?;
        return Some((u64::from(v.cast_unsigned()), p));
    }
    bit_codes::read_rc(s, at).ok()
}

fn put_units(answer: &mut Answer, s: &[u8], t: Text)
    ensures { answer.old.count ≤ answer.new.count }
{
    let mut place = t.position;
    for _ in 0..t.count.min(MOST_UNITS) {
        match unit(s, place, t.width) {
            Some((v, p)) => {
                answer.push(v);
                place = p;
            }
            None => answer.push(NO_UNIT),
        }
    }
}

// Puts a text of the payload `s` behind the values of `answer`: its source, its width, its position, its count, 1 where it is padded,
// and its units. A text is cut where the room ends, but its count is not, and the list has no such count.
pub fn put(answer: &mut Answer, s: &[u8], t: Text)
    ensures { answer.old.count ≤ answer.new.count }
{
    answer.push(u8::from(t.source));
    answer.push(t.width);
    answer.push(t.position as u64);
    answer.push(t.count as u64);
    answer.push(t.padded);
    put_units(answer, s, t);
}
