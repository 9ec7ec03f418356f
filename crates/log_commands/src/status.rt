//! How a command ended.

ghost use Rattle.std.specs.Prelude.{◌≡◌};

use std::marker::Model;

/// How a command ended. Contracts see its number, which is the program's status.
#[derive(Drop)]
pub struct Status {
    number: u8,
}

impl Model for Status {
    ghost use Rattle.std.specs.Prelude.{ℕ};

    ghost Value = { ℕ };

    ghost view = { λ s. s.number };
}

impl Status {
    /// The command was done.
    pub const DONE: Status = Status { number: 0 };
    /// Memory ran out.
    pub const MEMORY: Status = Status { number: 1 };
    /// The words spell no command.
    pub const WORDS: Status = Status { number: 2 };
    /// A line of the script is refused.
    pub const SCRIPT: Status = Status { number: 3 };
    /// The source failed.
    pub const SOURCE: Status = Status { number: 4 };
    /// The output failed.
    pub const OUTPUT: Status = Status { number: 5 };
    /// The disk failed.
    pub const DISK: Status = Status { number: 6 };
    /// The log is damaged.
    pub const DAMAGED: Status = Status { number: 7 };
    /// The command was done, and a transaction was refused.
    pub const REFUSED: Status = Status { number: 8 };

    /// The number of the status.
    pub fn number(self) -> u8
        ensures { result ≡ self }
    {
        self.number
    }
}
