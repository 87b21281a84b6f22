//! The draws of a number.
use std::marker::Model;

const MODULUS: u32 = 65_537;

/// What was drawn last; each draw follows from it alone.
#[derive(Drop)]
pub struct Draws {
    last: u32,
}

impl Model for Draws {
    ghost use Rattle.std.specs.Prelude.{ℕ, ◌<◌};

    ghost Value = { ℕ };

    ghost view = { λ d. d.last };

    ghost invariant = { λ d. d.last < 65537 };
}

impl Draws {
    ghost use Rattle.std.specs.Prelude.{◌≡◌, ◌<◌, ◌%◌};
    ghost use Rattle.query_generator.specs.Draws.{next};

    pub fn of(number: u64) -> Draws
        ensures { result ≡ number % 65537 }
    {
        Draws {
            last: (number % MODULUS as u64) as u32,
        }
    }

    pub fn draw(&mut self) -> u32
        ensures after { self.new ≡ next self.old }
        ensures drawn { result ≡ self.new }
        ensures below { result < 65537 }
    {
        self.last = (75 * self.last + 74) % MODULUS;
        self.last
    }
}
