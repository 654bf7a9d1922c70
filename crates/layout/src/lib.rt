// The commands of a job's bytes, by document 01's names, and what calls are refused for, by its numbers. What they mean is in specs/.
#![tactic(auto)]

ghost use Rattle.std.specs.Prelude.{◌≡◌};
ghost use Rattle.layout.specs.Commands.{number_of_command};
ghost use Rattle.layout.specs.Faults.{number_of_fault};

// What a job's bytes begin with.
pub const START: [u8; 4] = *b"PSJ1";

// A command, under its byte.
#[derive(Clone, Copy)]
pub enum Command {
    NextTable = 0x10,
    NextColumn = 0x11,
    ExtractBegins = 0x20,
    QueryBegins = 0x21,
    TableUsed = 0x30,
    OutputColumn = 0x31,
    NextClause = 0x40,
    NumberCompared = 0x41,
    ColumnCompared = 0x42,
    End = 0xFF,
}

impl From<Command> for u8 {
    ghost from_gives = { λ command n. n ≡ number_of_command command };

    fn from(command: Command) -> u8 {
        command as u8
    }
}

// What a call is refused for, under document 01's number of it.
#[derive(Clone, Copy, PartialEq, Eq)]
pub enum Fault {
    // The bytes don't begin as a job's do.
    Start = 1,
    // The bytes end before the job does.
    Missing = 2,
    // A byte is no command's.
    Unlisted = 3,
    // A command may not follow the one before it.
    OutOfOrder = 4,
    // There are as many of its kind as there may be.
    NoRoom = 5,
    // The bytes end within a command's operands.
    NoOperands = 6,
    // A bound or a number is out of range, or a column's bounds are the wrong way round.
    OutOfRange = 7,
    // An op is none.
    UnknownOp = 8,
    // A table or a column that is named isn't declared, or a column's table isn't used.
    Undeclared = 9,
    // A used table isn't above the one before it, or an output column repeats.
    NotNew = 10,
    // Something follows the end.
    Trailing = 11,
    // No bytes are read as the record.
    NeverRead = 12,
    // Fewer bytes are lent than are to be written.
    TooFewBytes = 17,
}

impl From<Fault> for u8 {
    ghost from_gives = { λ fault n. n ≡ number_of_fault fault };

    fn from(fault: Fault) -> u8 {
        fault as u8
    }
}

// A refusal: what for, and the position in the bytes.
#[derive(Clone, Copy, PartialEq, Eq)]
pub struct Refusal {
    pub fault: Fault,
    pub at: usize,
}
