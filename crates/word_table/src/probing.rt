ghost use Rattle.std.specs.Prelude.{◌≤◌, ◌<◌, ◌^◌, length};
ghost use Rattle.word_table.specs.Table.{EndsProbe};

use crate::places::{home, next_place};

/// Where a probe ended: at the word, at an empty cell, or back at its home.
#[derive(Clone, Copy)]
pub enum Probe {
    At { at: u32 },
    Gap { at: u32 },
    Round,
}

/// Looks for a word from its home on. It divides once.
pub fn look_up(cells: &[u64], word: u64) -> Probe
    requires some { 1 ≤ length cells.now }
    requires few { length cells.now ≤ 2 ^ 20 }
    ensures { EndsProbe cells.now word result }
{
    let capacity = cells.len() as u32;
    let mut at = home(word, capacity);
    for _step in 0..capacity {
        let found = cells[at as usize];
        // An empty cell comes first, so that 0 is no word.
        if found == 0 {
            return Probe::Gap { at };
        }
        if found == word {
            return Probe::At { at };
        }
        at = next_place(at, capacity);
    }
    Probe::Round
}
