//! Stages as a word writes them.
ghost use Rattle.std.specs.Prelude.{◌≡◌, ◌++◌, ◌∷◌, ◌==◌, [], None, IfSome, length, option_map};
ghost use Rattle.std.specs.List.{slice_split};
ghost use Rattle.std.specs.Option.{option_and_then};
ghost use Rattle.command_line.specs.Reading.{all_of, few, off_in, stage_of, stages_of};
ghost use Rattle.command_line.specs.HeldStages.{stage_read, stages_before, stages_read};

use crate::numbers::number_within;
use crate::off_rules::read_off;
use crate::off_set::OffSet;
use crate::stages::Stages;
use query_stage::Stage;

/// The greatest threshold.
const THRESHOLD: u64 = 100_000_000_000_000_000;

/// The stages that the word joins by `,`.
pub fn read_stages(word: &str) -> Option<Stages>
    ensures { option_map stages_read result ≡ stages_of word.now }
{
    read_more(word, None)
}

// The stages before, and those that the word names.
fn read_more(word: &str, before: Option<Stages>) -> Option<Stages>
    ensures { option_map stages_read result
        ≡ option_and_then (λ after. few (stages_before before ++ after))
        (all_of stage_of (slice_split (λ byte. byte == 44) word.now)) }
{
    match word.split_once(',') {
        Some((first, more)) => read_more(more, Some(one_more(before, read_stage(first)?)?)),
        None => one_more(before, read_stage(word)?),
    }
}

// The stages before, if there are some, and one more, where there is room for it.
fn one_more(before: Option<Stages>, stage: Stage) -> Option<Stages>
    ensures more { IfSome result
        (λ more. stages_read more ≡ stages_before before ++ stage_read stage ∷ []) }
    ensures full { result ≡ None → length (stages_before before) ≡ 8 }
{
    match before {
        Some(stages) => stages.with(stage),
        None => Some(Stages::new(stage)),
    }
}

// The stage that the word names: which rules are off, and behind `@` which cost is enough.
fn read_stage(word: &str) -> Option<Stage>
    ensures { option_map stage_read result ≡ stage_of word.now }
{
    match word.split_once('@') {
        Some((rules, threshold)) => Some(Stage {
            off: read_rules(rules)?.bits,
            threshold: Some(number_within(threshold, 1, THRESHOLD)?),
        }),
        None => Some(Stage {
            off: read_rules(word)?.bits,
            threshold: None,
        }),
    }
}

// The rules that are off in a stage: none where the word is `all`.
fn read_rules(word: &str) -> Option<OffSet>
    ensures { option_map (λ set. set.bits) result ≡ off_in word.now }
{
    match word {
        "all" => Some(OffSet::new()),
        _ => read_off(word),
    }
}
