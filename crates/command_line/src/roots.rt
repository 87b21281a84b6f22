//! Where the result of a query is wanted.
ghost use Rattle.std.specs.Prelude.{◌≡◌};
ghost use Rattle.command_line.specs.Reading.{root_of};

use query_core::RootDist;

/// The distribution that the word names.
pub fn read_root(word: &str) -> Option<RootDist>
    ensures { result ≡ root_of word.now }
{
    match word {
        "one" => Some(RootDist::One),
        "spread" => Some(RootDist::Spread),
        _ => None,
    }
}
