//! How a command was answered, without its rows: what a unit branches on.

use zr_command::Answer;

/// What a unit is told of a command.
#[derive(Clone, Copy, PartialEq, Eq)]
pub enum Told {
    Done,
    Failed,
    Garbled(u64),
    /// Memory was refused: the unit can give no further command.
    NoMemory,
}

impl Told {
    ghost use Rattle.std.specs.Prelude.{◌≡◌};
    ghost use Rattle.zr_permit.specs.Turned.{is_no_memory, told_of};

    pub fn of(answer: &Answer) -> Told
        ensures { result ≡ told_of answer.now }
    {
        match answer {
            Answer::Done(_) => Told::Done,
            Answer::Failed => Told::Failed,
            Answer::Garbled(line) => Told::Garbled(*line),
            Answer::NoMemory => Told::NoMemory,
        }
    }

    pub fn is_no_memory(self) -> bool
        ensures { result ≡ is_no_memory self }
    {
        matches!(self, Told::NoMemory)
    }
}
