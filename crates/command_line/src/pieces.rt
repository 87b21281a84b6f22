//! The pieces of a command line.
ghost use Rattle.std.specs.Prelude.{◌≡◌, option_map, string_bytes, IfSome, Some};
ghost use Rattle.command_line.specs.Command.{is_positional};
ghost use Rattle.command_line.specs.Options.{option_word};
ghost use Rattle.command_line.specs.declared.options.OptionName.{OptionName as AnyOptionName};
ghost use Rattle.command_line.specs.Reading.{is_valued, option_named, piece_of, valued_piece};
ghost use Rattle.command_line.specs.Views.{piece};

use crate::options::OptionName;

/// A name, or an option with the value behind it, if it takes one.
#[derive(Clone, Copy)]
pub enum Word<'w> {
    Name(&'w str),
    Option(OptionName, Option<&'w str>),
}

/// Whether a value stands behind the word.
pub fn takes_value(word: &String) -> bool
    ensures { result ≡ is_valued (string_bytes word.now) }
{
    match option_of(word.as_str()) {
        Some(option) => option.takes_value(),
        None => false,
    }
}

/// What a word is behind which no value stands.
pub fn read_word(word: &String) -> Option<Word<'_>>
    ensures { option_map piece result ≡ piece_of (string_bytes word.now) }
{
    match option_of(word.as_str()) {
        Some(option) => Some(Word::Option(option, None)),
        None if is_positional_word(word) => Some(Word::Name(word.as_str())),
        None => None,
    }
}

/// What an option with a value is.
pub fn read_valued<'w>(word: &'w String, value: &'w String) -> Option<Word<'w>>
    ensures { option_map piece result
        ≡ valued_piece (string_bytes word.now) (string_bytes value.now) }
{
    let option = option_of(word.as_str())?;
    Some(Word::Option(option, Some(value.as_str())))
}

// Whether the word may stand where a file's name is wanted.
fn is_positional_word(word: &String) -> bool
    ensures { result ≡ is_positional (string_bytes word.now) }
{
    !word.is_empty() && !word.starts_with('-')
}

// The option of this name.
fn option_of(word: &str) -> Option<OptionName>
    ensures { result ≡ option_named word.now }
{
    spelled(word)
}

fn spelled(word: &str) -> Option<OptionName>
    ensures found { IfSome result (λ option. option_word option ≡ word.now) }
    ensures only { (option : AnyOptionName) → option_word option ≡ word.now → result ≡ Some option }
{
    match word {
        "--workers" => Some(OptionName::Workers),
        "--capacity" => Some(OptionName::Capacity),
        "--root" => Some(OptionName::Root),
        "--off" => Some(OptionName::Off),
        "--memo" => Some(OptionName::Memo),
        "--trace" => Some(OptionName::Trace),
        "--by-worker" => Some(OptionName::ByWorker),
        _ => None,
    }
}
