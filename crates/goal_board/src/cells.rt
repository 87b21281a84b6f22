ghost use Rattle.std.specs.Prelude.{◌≡◌, ◌≢◌, ℕ, ◌<◌, IsSome, IsTrue};
ghost use Rattle.goal_board.specs.Seats.{IsSeatOf, hands};
ghost use Rattle.goal_board.specs.Calls.{Inserts, Finds, FindsWhether, ReadsCell};
ghost use Rattle.goal_board.specs.SeatCalls.{HasSeenEntry};

use crate::board::{Board, Seat};
use crate::steps::cell_at;
use board_rule::GoalRules;
use word_table::{Inserted, home, next_place};

impl<R: GoalRules> Board<R> {
    /// Puts an entry into the table. A word that stands in a cell keeps its place.
    pub fn insert(&self, seat: &mut Seat<R>, word: u64) -> Inserted
        requires seat { IsSeatOf R.meaning self.now seat.old }
        requires enters { (R.meaning self.now.setup.rules).entry word }
        ensures seat { IsSeatOf R.meaning self.now seat.new }
        ensures answer { Inserts self.now.setup.capacity (hands seat.old) word result (hands seat.new) }
    {
        let capacity = self.setup.capacity;
        let mut place = home(word, capacity);
        for _step in 0..capacity {
            // A look costs less than a step that finds the cell taken.
            let seen = self.look(seat, cell_at(place));
            if seen == word {
                return Inserted::Known { at: place };
            }
            if seen != 0 {
                place = next_place(place, capacity);
                continue;
            }
            let found = self.put(seat, place, word);
            if found == 0 {
                return Inserted::Fresh { at: place };
            }
            if found == word {
                return Inserted::Known { at: place };
            }
            place = next_place(place, capacity);
        }
        self.fill(seat);
        Inserted::Full
    }

    /// The place of the cell in which a word was found.
    pub fn find(&self, seat: &mut Seat<R>, word: u64) -> Option<u32>
        requires { IsSeatOf R.meaning self.now seat.old }
        ensures seat { IsSeatOf R.meaning self.now seat.new }
        ensures answer { Finds self.now.setup.capacity (hands seat.old) word result (hands seat.new) }
        ensures shown { HasSeenEntry R.meaning self.now seat.old word → IsSome result }
    {
        let cells = self.setup.capacity;
        let mut place = home(word, cells);
        for _step in 0..cells {
            let found = self.look(seat, cell_at(place));
            if found == 0 {
                return None;
            }
            if found == word {
                return Some(place);
            }
            place = next_place(place, cells);
        }
        None
    }

    /// Whether a word was found in a cell.
    pub fn holds(&self, seat: &mut Seat<R>, word: u64) -> bool
        requires { IsSeatOf R.meaning self.now seat.old }
        ensures seat { IsSeatOf R.meaning self.now seat.new }
        ensures answer { FindsWhether self.now.setup.capacity (hands seat.old) word result (hands seat.new) }
        ensures shown { HasSeenEntry R.meaning self.now seat.old word → IsTrue result }
    {
        self.find(seat, word).is_some()
    }

    /// The word that was found in the cell at a place.
    pub fn word_at(&self, seat: &mut Seat<R>, at: u32) -> Option<u64>
        requires seat { IsSeatOf R.meaning self.now seat.old }
        requires near { at < self.now.setup.capacity }
        ensures seat { IsSeatOf R.meaning self.now seat.new }
        ensures answer { ReadsCell (hands seat.old) at result (hands seat.new) }
    {
        let found = self.look(seat, cell_at(at));
        if found == 0 { None } else { Some(found) }
    }
}
