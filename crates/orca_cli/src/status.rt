ghost use Rattle.std.specs.Prelude.{◌≡◌};
ghost use Rattle.orca_cli.specs.Status.{status_number};

/// How a run ended.
#[derive(Clone, Copy, Debug, PartialEq, Eq)]
pub enum Status {
    /// The text is that of the least plan, of a dump, or of a batch; or it says what a plan costs that was given.
    Planned,
    /// No plan gives what is asked for.
    NoPlan,
    /// The words are no command.
    Usage,
    /// The query is refused; the text says why.
    QueryRefused,
    /// The catalogue is refused; the text says why.
    CatalogRefused,
    /// The search has more entries than its table has room for.
    TooManyEntries,
    /// A file couldn't be read; the text names it.
    ReadFault,
    /// The text couldn't be put whole.
    WriteFault,
    /// Memory was refused, and nothing was put.
    Memory,
    /// The text is no valid plan of the query; the text of the run says why.
    PlanRefused,
    /// The dump is refused, or the catalogue of a query is too long for one; the text says why.
    DumpRefused,
    /// The list of queries is refused; the text says why.
    BatchRefused,
}

impl Status {
    /// The number with which the program ends.
    pub fn number(self) -> u8
        ensures { result ≡ status_number self }
    {
        match self {
            Status::Planned => 0,
            Status::NoPlan => 1,
            Status::Usage => 2,
            Status::QueryRefused => 3,
            Status::CatalogRefused => 4,
            Status::TooManyEntries => 5,
            Status::ReadFault => 6,
            Status::WriteFault => 7,
            Status::Memory => 8,
            Status::PlanRefused => 9,
            Status::DumpRefused => 10,
            Status::BatchRefused => 11,
        }
    }
}
