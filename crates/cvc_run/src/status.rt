//! How a run ends.
ghost use Rattle.std.specs.Prelude.{◌≡◌};
ghost use Rattle.cvc_run.specs.Codes.{code_of};

/// How a run ends. All but a read fault, a write fault and want of memory come with their whole text written.
#[derive(Clone, Copy, Debug, PartialEq, Eq)]
pub enum Status {
    /// Accepted, without a finding.
    Clean,
    /// Accepted, with findings.
    Errors,
    /// The words are refused.
    Words,
    /// The netlist file is refused.
    Netlist,
    /// The models file is refused.
    Models,
    /// The power file is refused.
    Power,
    /// The three files don't fit together.
    Binding,
    /// A file could not be opened or read. Nothing was written.
    ReadFault,
    /// The sink took no more. A prefix of the text was written.
    WriteFault,
    /// There was no memory. Nothing was written.
    NoMemory,
    /// The log or the report that is to be verified is refused.
    Certificate,
    /// The file of expected bounds is refused.
    Expected,
    /// The list of modes is refused.
    Modes,
    /// The file of edits is refused.
    Edits,
}

impl Status {
    /// The exit status of the program.
    pub fn code(&self) -> u8
        ensures { result ≡ code_of self.now }
    {
        match self {
            Status::Clean => 0,
            Status::Errors => 1,
            Status::Words => 2,
            Status::Netlist => 3,
            Status::Models => 4,
            Status::Power => 5,
            Status::Binding => 6,
            Status::ReadFault => 7,
            Status::WriteFault => 8,
            Status::NoMemory => 9,
            Status::Certificate => 10,
            Status::Expected => 11,
            Status::Modes => 12,
            Status::Edits => 13,
        }
    }
}
