ghost use Rattle.std.specs.Prelude.{◌≡◌, ℕ, ◌+◌, ◌*◌, ◌^◌, ◌<◌, ◌≤◌, IfOk, IfSome, IfNone, OnOk};
ghost use Rattle.std.specs.Prelude.{[], ◌∷◌, ◌++◌, ◌==◌, cond, length, slice_index, true, false};
ghost use Rattle.std.specs.Slots.{slots_items, slots_len, IsFull};
ghost use Rattle.board_rule.specs.Words.{mem};
ghost use Rattle.goal_board.specs.Closed.{HasWorkers, with_closed, finished_at, finished_with};

use crate::answers::{Answer, Finished};
use crate::steps::{CLOSED, cell_at, cost_at, head_at, node_at, run_at, who_at};
use board_rule::GoalRules;
use std::alloc::{AllocError, Global};
use word_table::{home, next_place};

type Words = atomic_table::Closed<(), Global>;

/// A board that no thread shares any more. It keeps its memory until it is dropped.
pub struct ClosedBoard {
    pub(crate) words: Words,
    pub(crate) capacity: u32,
    ghost read: { IsFull words.words × (slots_len words.words ≡ 14 * capacity + 1) },
    ghost no_slots: { slots_len words.slots ≡ 0 },
    ghost sized: { (0 < capacity) × (capacity ≤ 2 ^ 20) },
    ghost workers: { HasWorkers (mem (slots_items words.words)) capacity },
}

impl Drop for ClosedBoard {
    fn drop(self) {
        let ClosedBoard { words, capacity: _ } = self;
        words.free();
    }
}

impl ClosedBoard {
    ghost use Rattle.goal_board.specs.Closed.{ReadsReady, IsFirstReady, answer_at as the_answer_at};
    ghost use Rattle.goal_board.specs.Closing.{words_of, mem_of, cells_of, finished_of};
    ghost use Rattle.goal_board.specs.Closing.{is_full as the_is_full, IsFinishedAt, HasFinished, HasAnswer};

    /// The number of cells.
    pub fn capacity(&self) -> u32
        ensures { result ≡ self.now.capacity }
    {
        self.capacity
    }

    /// Whether some entry found every cell taken.
    pub fn is_full(&self) -> bool
        ensures { result ≡ the_is_full self.now }
    {
        self.word(0) != 0
    }

    /// The answer to a goal, if it is finished. It looks from the goal's home on.
    pub fn answer(&self, goal: u64) -> Option<Answer>
        ensures found { IfSome result (HasAnswer self.now goal) }
        ensures none { IfNone result (HasFinished self.now goal → ⊥) }
    {
        let mut place = home(goal, self.capacity);
        for _step in 0..self.capacity {
            if self.is_finished_at(place, goal) {
                return Some(self.answer_at(place));
            }
            place = next_place(place, self.capacity);
        }
        None
    }

    /// The goal in the least place that is ready.
    pub fn ready<R: GoalRules>(&self, rules: &R) -> Option<u64>
        ensures { IsFirstReady (R.meaning rules.now) (mem_of self.now) self.now.capacity result }
    {
        for place in 0..self.capacity {
            let found = self.ready_at(rules, place);
            if found.is_some() {
                return found;
            }
        }
        None
    }

    /// How many goals are finished.
    pub fn finished_count(&self) -> u32
        ensures { result ≡ length (finished_of self.now) }
    {
        let mut finished = 0;
        for place in 0..self.capacity {
            if self.head(place) >= CLOSED {
                finished += 1;
            }
        }
        finished
    }

    /// The words of the taken cells, in the order of their places.
    pub fn cells(&self, alloc: Global) -> Result<Vec<u64>, AllocError>
        ensures { IfOk result (λ cells. cells.items ≡ cells_of self.now) }
    {
        let mut cells = Vec::with_capacity(alloc, self.capacity as usize)?;
        for place in 0..self.capacity {
            push_taken(&mut cells, self.cell(place))?;
        }
        Ok(cells)
    }

    /// The finished goals, in the order of their places.
    pub fn finished(&self, alloc: Global) -> Result<Vec<Finished>, AllocError>
        ensures { IfOk result (λ finished. finished.items ≡ finished_of self.now) }
    {
        let mut finished = Vec::with_capacity(alloc, self.capacity as usize)?;
        for place in 0..self.capacity {
            self.push_finished(&mut finished, place)?;
        }
        Ok(finished)
    }

    // Whether the goal stands at the place and is finished.
    fn is_finished_at(&self, place: u32, goal: u64) -> bool
        requires { place < self.now.capacity }
        ensures yes { result ≡ true → IsFinishedAt self.now goal place }
        ensures no { result ≡ false → IsFinishedAt self.now goal place → ⊥ }
    {
        self.cell(place) == goal && self.head(place) >= CLOSED
    }

    // The goal at a place, if it is ready.
    fn ready_at<R: GoalRules>(&self, rules: &R, place: u32) -> Option<u64>
        requires { place < self.now.capacity }
        ensures { ReadsReady (R.meaning rules.now) (mem_of self.now) place result }
    {
        let word = self.cell(place);
        if word == 0 {
            return None;
        }
        if !rules.is_goal(word) {
            return None;
        }
        if self.run(place) == 0 {
            Some(word)
        } else {
            None
        }
    }

    // Adds the goal at a place to the finished ones, where its head is closed.
    fn push_finished(&self, finished: &mut Vec<Finished>, place: u32) -> Result<(), AllocError>
        requires { place < self.now.capacity }
        ensures { OnOk result (finished.new.items ≡
            with_closed ((mem_of self.now).head place) finished.old.items
            (finished_at (mem_of self.now) place)) }
    {
        let head = self.head(place);
        push_closed(
            finished,
            head,
            self.cell(place),
            self.answer_at(place),
            self.who(place),
        )
    }

    // What the words of a place say.
    fn cell(&self, place: u32) -> u64
        requires { place < self.now.capacity }
        ensures { result ≡ (mem_of self.now).cell place }
    {
        self.word(cell_at(place))
    }

    fn run(&self, place: u32) -> u64
        requires { place < self.now.capacity }
        ensures { result ≡ (mem_of self.now).run place }
    {
        self.word(run_at(place))
    }

    fn head(&self, place: u32) -> u64
        requires { place < self.now.capacity }
        ensures { result ≡ (mem_of self.now).head place }
    {
        self.word(head_at(place))
    }

    fn who(&self, place: u32) -> u64
        requires { place < self.now.capacity }
        ensures { result ≡ (mem_of self.now).who place }
    {
        self.word(who_at(place))
    }

    fn answer_at(&self, place: u32) -> Answer
        requires { place < self.now.capacity }
        ensures { result ≡ the_answer_at (mem_of self.now) place }
    {
        Answer {
            cost: self.word(cost_at(place)),
            node: self.word(node_at(place)),
        }
    }

    fn word(&self, at: usize) -> u64
        requires { at < 14 * self.now.capacity + 1 }
        ensures { result ≡ slice_index (words_of self.now) at }
    {
        self.words.word(at)
    }
}

// Adds the word of a taken cell.
fn push_taken(cells: &mut Vec<u64>, word: u64) -> Result<(), AllocError>
    ensures { OnOk result
        (cells.new.items ≡ cond (word == 0) cells.old.items (cells.old.items ++ word ∷ [])) }
{
    if word == 0 {
        return Ok(());
    }
    cells.push(word)?;
    Ok(())
}

// Adds a goal with its answer and its worker, where its head is closed.
fn push_closed(
    finished: &mut Vec<Finished>,
    head: u64,
    goal: u64,
    answer: Answer,
    who: u64,
) -> Result<(), AllocError>
    requires { 2 ^ 63 ≤ head → (1 ≤ who) × (who ≤ 64) }
    ensures { OnOk result
        (finished.new.items ≡ with_closed head finished.old.items (finished_with goal answer who)) }
{
    if head < CLOSED {
        return Ok(());
    }
    finished.push(Finished {
        goal,
        answer,
        who: (who - 1) as u32,
    })?;
    Ok(())
}
