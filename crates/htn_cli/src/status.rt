ghost use Rattle.std.specs.Prelude.{◌≡◌};
ghost use Rattle.htn_cli.specs.Refusal.{code_of};

/// How a run ended.
#[derive(Clone, Copy, Debug, PartialEq, Eq)]
pub enum Status {
    /// The outputs stand.
    Done,
    /// A text is not of the form that is read.
    TextFault,
    /// The words are of no command's form.
    Words,
    /// A file was not read.
    ReadFault,
    /// An output was not written.
    WriteFault,
    /// Memory was refused.
    NoMemory,
    /// The command found that its answer is no.
    Finding,
    /// A counted number is past its limit.
    Limit,
}

impl Status {
    /// The number with which the program ends, from 0 to 7 in the order above.
    pub fn code(self) -> u8
        ensures { result ≡ code_of self }
    {
        match self {
            Status::Done => 0,
            Status::TextFault => 1,
            Status::Words => 2,
            Status::ReadFault => 3,
            Status::WriteFault => 4,
            Status::NoMemory => 5,
            Status::Finding => 6,
            Status::Limit => 7,
        }
    }
}
