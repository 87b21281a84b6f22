//! The rules that a command switches off.
ghost use Rattle.std.specs.Prelude.{◌≡◌, ◌++◌, ◌∷◌, ◌==◌, [], None, false, List, option_map, IfSome};
ghost use Rattle.std.specs.List.{slice_split};
ghost use Rattle.std.specs.Option.{option_and_then};
ghost use Rattle.xform_rules.specs.declared.rules.Rule.{Rule};
ghost use Rattle.command_line.specs.Rules.{may_be_off};
ghost use Rattle.command_line.specs.Reading.{all_of, off_of, rule_of_name, set_where_off};
ghost use Rattle.command_line.specs.Drafts.{IsOffSet};

use crate::off_set::OffSet;
use query_core::sets;
use xform_rules::{Rule, rule_named};

impl OffSet {
    // The set and the rule, where the rule may be off and isn't yet.
    fn with(self, rule: Rule) -> Option<OffSet>
        ensures added { IfSome result (λ set. (before : List Rule) → IsOffSet before self.bits
            → IsOffSet (before ++ rule ∷ []) set.bits) }
        ensures refused { result ≡ None → (before after : List Rule) → IsOffSet before self.bits
            → may_be_off (before ++ rule ∷ after) ≡ false }
    {
        let number = rule.number();
        if !rule.can_be_off() || sets::has(self.bits, number) {
            return None;
        }
        Some(OffSet {
            bits: sets::with(self.bits, number),
        })
    }
}

/// The rules whose names the word joins by `+`, where they may be off.
pub fn read_off(word: &str) -> Option<OffSet>
    ensures { option_map (λ set. set.bits) result ≡ off_of word.now }
{
    read_more(word, OffSet::new())
}

// The rules of the set and those that the word names.
fn read_more(word: &str, set: OffSet) -> Option<OffSet>
    ensures { (before : List Rule) → IsOffSet before set.bits → option_map (λ all. all.bits) result
        ≡ option_and_then (λ after. set_where_off (before ++ after))
        (all_of rule_of_name (slice_split (λ byte. byte == 43) word.now)) }
{
    match word.split_once('+') {
        Some((name, more)) => read_more(more, set.with(rule_named(name)?)?),
        None => set.with(rule_named(word)?),
    }
}
