ghost use Rattle.std.specs.Prelude.{◌≡◌, ℕ, ◌*◌, ◌<◌, ◌≤◌, length, None};
ghost use Rattle.board_rule.specs.Waiters.{head_of};
ghost use Rattle.board_rule.specs.Seats.{Each};
ghost use Rattle.goal_board.specs.Seats.{IsSeatOf, IsInCall, hands};
ghost use Rattle.goal_board.specs.RightCalls.{Wakes};

use crate::answers::Woken;
use crate::board::{Board, Seat};
use crate::hints::Hints;
use crate::wait_steps::{bit_of, first_name};
use board_rule::GoalRules;

impl<R: GoalRules> Board<R> {
    // Walks the list that a closed head names: clears the bit of each waiter, and tells of those goals that this made
    // ready.
    pub(crate) fn wake<H: Hints>(&self, seat: &mut Seat<R>, head: u64, hints: &mut H) -> Woken
        requires seat { IsInCall R.meaning self.now seat.old }
        requires no_wait { (hands seat.old).pending ≡ None }
        requires named { head ≡ head_of (hands seat.old).walk.waiters }
        requires near { Each (λ waiter. waiter < 8 * self.now.setup.capacity) (hands seat.old).walk.waiters }
        requires few { length (hands seat.old).walk.waiters ≤ 8 * self.now.setup.capacity }
        requires hints { H.capacity hints.old ≡ self.now.setup.capacity }
        ensures seat { IsSeatOf R.meaning self.now seat.new }
        ensures answer { Wakes self.now.setup.capacity (hands seat.old) result (hands seat.new) }
        ensures hints { H.capacity hints.new ≡ H.capacity hints.old }
    {
        let mut woken = Woken {
            count: 0,
            one: None,
        };
        let mut name = first_name(head);
        while name != 0 {
            let waiter = name as u32 - 1;
            name = self.read_next(seat, waiter);
            // Nothing else was left of the run word.
            if self.clear_bit(seat, waiter) == bit_of(waiter % 8) {
                hints.hint(waiter / 8);
                woken = Woken {
                    count: woken.count + 1,
                    one: Some(waiter / 8),
                };
            }
        }
        woken
    }
}
