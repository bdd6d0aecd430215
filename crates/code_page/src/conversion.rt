// A list converted, either way, written once: every entry is judged and the room is tested before the first store.
ghost use Rattle.std.specs.Prelude.{◌≡◌, ◌↔◌, IsTrue, Some, IsSome};
ghost use Rattle.std.specs.List.{All, AllPass};
ghost use Rattle.code_page.specs.Conversion.{Converts};

use crate::character::Character;
use crate::table::Table;
use crate::{ConversionRefusal, table};

// Where every entry is its own, nothing is undefined and the table is not needed.
pub fn convert<T: Character>(
    input: &[T],
    output: &mut [T::Other],
) -> Result<usize, ConversionRefusal>
    requires { (x : T) → IsTrue (T.is_own x) → IsSome (T.mapped x) }
    ensures { Converts T.mapped input.now result output.old output.new }
{
    if are_own(input) {
        return store(input, output, |x: T| x.own());
    }
    convert_by_table(input, output)
}

// Any list. A function of its own, so that a list that needs no table pays for none.
fn convert_by_table<T: Character>(
    input: &[T],
    output: &mut [T::Other],
) -> Result<usize, ConversionRefusal>
    ensures { Converts T.mapped input.now result output.old output.new }
{
    let table = table::cp1252();
    let defined = are_defined(&table, input);
    if !defined {
        return Err(ConversionRefusal::UndefinedCharacter);
    }
    store(input, output, |x: T| x.by_table(&table))
}

// Whether every entry is its own. There is no way out before the last, so that the compiler takes many at once.
fn are_own<T: Character>(input: &[T]) -> bool
    ensures { IsTrue result ↔ AllPass T.is_own input.now }
{
    input.iter().fold(true, |own, x| own & x.is_own())
}

// Whether every entry is defined.
fn are_defined<T: Character>(table: &Table, input: &[T]) -> bool
    ensures { IsTrue result ↔ All (λ x. IsSome (T.mapped x)) input.now }
{
    input.iter().all(|x| x.is_defined(table))
}

// What each entry is mapped to, at the front of the output. This loop too has no way out before its end. The entry is stored by its index: with
// `output.iter_mut().zip(input)` the proof did not close, since the output's last value is told of by the slots that the iterator lent alone.
fn store<T: Character, F: Fn(T) -> T::Other>(
    input: &[T],
    output: &mut [T::Other],
    other: F,
) -> Result<usize, ConversionRefusal>
    requires defined { All (λ x. IsSome (T.mapped x)) input.now }
    requires callable { All (F.pre other) input.now }
    requires is { (x : T) (y : T.Other) → F.post other x y → T.mapped x ≡ Some y }
    ensures { Converts T.mapped input.now result output.old output.new }
{
    if output.len() < input.len() {
        return Err(ConversionRefusal::OutputTooShort);
    }
    for (i, x) in input.iter().enumerate() {
        output[i] = other(*x);
    }
    Ok(input.len())
}
