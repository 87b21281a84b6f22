//! How what is spelled and what is read agree.
ghost use Rattle.command_line.specs.Laws.{ReadsWhatIsSpelled, SpellsOne};

/// Words are a command exactly where they spell one: the word of a task, and behind it its names and
/// its options, each at most once, in whatever order.
pub fn commands_are_spelled()
    ensures reads { ReadsWhatIsSpelled }
    ensures one { SpellsOne }
{}
