//! What the names behind `gen` say.
ghost use Rattle.std.specs.Prelude.{◌≡◌, ◌∷◌, [], IfSome};
ghost use Rattle.command_line.specs.Numbers.{IsWithin};
ghost use Rattle.command_line.specs.Reading.{input_of, shape_of};

use crate::command::GenInput;
use crate::numbers::number_within;
use query_generator::GenShape;

/// A number, how many tables, and a shape.
pub fn read_input(number: &str, tables: &str, shape: &str) -> Option<GenInput>
    ensures input { result ≡ input_of (number.now ∷ tables.now ∷ shape.now ∷ []) }
    ensures few { IfSome result (λ input. IsWithin 1 8 input.tables) }
{
    let number = number_within(number, 0, u64::MAX)?;
    let tables = number_within(tables, 1, 8)?;
    let shape = read_shape(shape)?;
    Some(GenInput {
        number,
        tables: tables as u32,
        shape,
    })
}

// The shape that the word names.
fn read_shape(word: &str) -> Option<GenShape>
    ensures { result ≡ shape_of word.now }
{
    match word {
        "chain" => Some(GenShape::Chain),
        "star" => Some(GenShape::Star),
        "clique" => Some(GenShape::Clique),
        _ => None,
    }
}
