ghost use Rattle.std.specs.Prelude.{◌≡◌};
ghost use Rattle.operad_run.specs.Runs.{code_of};

/// How a run ends.
#[derive(Clone, Copy, Debug, PartialEq, Eq)]
pub enum Status {
    /// All was answered.
    Done,
    /// A certificate doesn't hold.
    Refused,
    /// The words are no command.
    Usage,
    /// A line of the document is refused.
    Document,
    /// The document goes past a limit.
    Limit,
    /// The bound on counted steps was met.
    Budget,
    /// The source failed.
    ReadFault,
    /// The sink failed.
    WriteFault,
    /// Memory ran out.
    NoMemory,
}

impl Status {
    /// The number with which the program ends, from 0 to 8.
    pub fn code(&self) -> u8
        ensures number { result ≡ code_of self.now }
    {
        *self as u8
    }
}
