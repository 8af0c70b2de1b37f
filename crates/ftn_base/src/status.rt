//! How a command ends.

ghost use Rattle.std.specs.Prelude.{◌≡◌, ◌<◌};
ghost use Rattle.ftn_base.specs.FaultNames.{code_of};

/// The status of a command, which is the exit code of the program.
#[derive(Clone, Copy)]
pub enum Status {
    /// The command was carried out.
    Done,
    /// The project has no fault, and a condition of the refactoring fails.
    Refused,
    /// The words are no command.
    BadWords,
    /// The project has a fault, or there is no plan text where one is needed.
    BadProject,
    /// A count passes a limit.
    Limit,
    /// The store failed.
    StoreFault,
    /// The source of input failed.
    InputFault,
    /// The sink of output failed.
    OutputFault,
    /// An allocation was refused.
    NoMemory,
    /// The program that was run faulted.
    ProgramFaulted,
    /// The program that was run needed more steps than it was given.
    StepsSpent,
    /// A plan file waits for recovery.
    Pending,
}

impl Status {
    /// The exit code, from 0 to 11.
    pub fn code(self) -> u8
        ensures { result ≡ code_of self }
    {
        match self {
            Status::Done => 0,
            Status::Refused => 1,
            Status::BadWords => 2,
            Status::BadProject => 3,
            Status::Limit => 4,
            Status::StoreFault => 5,
            Status::InputFault => 6,
            Status::OutputFault => 7,
            Status::NoMemory => 8,
            Status::ProgramFaulted => 9,
            Status::StepsSpent => 10,
            Status::Pending => 11,
        }
    }
}
