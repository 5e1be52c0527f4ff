// The statuses of the top call.
ghost use Rattle.std.specs.Prelude.{◌≡◌};
ghost use Rattle.parts_cli.specs.Status.{number_of};

/// How a call ended.
#[derive(Clone, Copy, Debug, PartialEq, Eq)]
pub enum Status {
    /// The work was done to the end of the input.
    Done,
    /// The input is not accepted.
    No,
    /// The words are none of the forms.
    Words,
    /// A read failed.
    ReadFault,
    /// A write failed, or the flush.
    WriteFault,
    /// Memory was wanting.
    Memory,
    /// The work was done to the end of the input, and some bundle does not show whether another plan leaves fewer tasks
    /// unassigned.
    Unproved,
}

impl Status {
    /// The exit status of the program.
    pub fn number(self) -> u8
        ensures { result ≡ number_of self }
    {
        match self {
            Status::Done => 0,
            Status::No => 1,
            Status::Words => 2,
            Status::ReadFault => 4,
            Status::WriteFault => 5,
            Status::Memory => 6,
            Status::Unproved => 7,
        }
    }
}
