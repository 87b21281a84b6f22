ghost use Rattle.std.specs.Prelude.{◌≡◌, ℕ};
ghost use Rattle.board_moves.specs.Words.{IsNextOf};

/// Words that can be gone over from the least to the greatest.
pub trait Words {
    // Whether a word is one of them.
    ghost has: { Self → ℕ → Type 0 };
    // Whether they can be gone over.
    ghost can_next: { Self → Type 0 };

    /// The least of them above the one before, or the least of all.
    fn next(&self, before: Option<u64>) -> Option<u64>
        requires { can_next self.now }
        ensures { IsNextOf (has self.now) before result };
}

/// The words that a group may have as members, each with a goal.
pub trait Members: Words {
    ghost goal_of: { Self → ℕ → ℕ };

    /// The goal of a member.
    fn goal_of(&self, word: u64) -> u64
        requires { Self.has self.now word }
        ensures { result ≡ goal_of self.now word };
}

/// A group that is explored. The goals of its members are those of their exploration.
pub trait Group: Members {
    // The goal that explores the group.
    ghost goal: { Self → ℕ };
    // The member with which the group begins.
    ghost origin: { Self → ℕ };

    /// The member with which the group begins.
    fn origin(&self) -> u64
        requires { Self.can_next self.now }
        ensures { result ≡ origin self.now };
}
