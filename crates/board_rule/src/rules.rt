ghost use Rattle.std.specs.Prelude.{◌≡◌, ◌≢◌, ℕ, ◌<◌, IsTrue};
ghost use Rattle.board_rule.specs.Meaning.{Meaning};

/// The rules of a board: which words may enter its cells, and which goals they are.
pub trait GoalRules: Send + Sync {
    // The words that may enter, the goals among them, their children, what they ask for and their answers.
    ghost meaning: { Self → Meaning };
    // A number that falls from a goal to its children.
    ghost rank_of: { Self → ℕ → ℕ };

    /// Whether a word is a goal, if it may enter at all.
    fn is_goal(&self, word: u64) -> bool
        ensures { result ≡ (meaning self.now).goal word };

    /// The goal's rank, which is greater than its children's.
    fn rank(&self, goal: u64) -> u64
        ensures { result ≡ rank_of self.now goal };

    // 0 is no entry.
    ghost zero_enters_not: { (rules : Self) (word : ℕ) → (meaning rules).entry word → word ≢ 0 };
    // A child has a smaller rank.
    ghost ranks_fall: { (rules : Self) (goal child : ℕ) → (meaning rules).child goal child
        → rank_of rules child < rank_of rules goal };
    // A child of an entry is an entry and a goal.
    ghost children_enter: { (rules : Self) (goal child : ℕ) → (meaning rules).entry goal
        → (meaning rules).child goal child → (meaning rules).entry child × IsTrue ((meaning rules).goal child) };
    // What a goal among the entries asks for is an entry.
    ghost asked_enter: { (rules : Self) (goal word : ℕ) → (meaning rules).entry goal
        → IsTrue ((meaning rules).goal goal) → (meaning rules).asked goal word → (meaning rules).entry word };
    // A goal has one answer at most.
    ghost answers_are_one: { (rules : Self) (goal cost node other_cost other_node : ℕ)
        → (meaning rules).answer goal cost node → (meaning rules).answer goal other_cost other_node
        → (cost ≡ other_cost) × (node ≡ other_node) };
}
