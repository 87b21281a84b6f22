//! How a run ends, before its text is put.
ghost use Rattle.std.specs.Prelude.{◌≡◌, IfOk, OnOk, OnErr};
ghost use Rattle.orca_cli.specs.Texts as texts;
ghost use Rattle.orca_cli.specs.Views.{EndsAs};

use crate::status::Status;
use orca_io::SinkError;
use std::alloc::{AllocError, Global};

/// A status, and the texts that go with it, one behind the other: lines, each with its newline.
#[derive(Drop)]
pub struct Ending {
    pub status: Status,
    pub texts: Vec<Vec<u8>>,
}

/// The end of a run, before its text is put.
#[derive(Drop)]
pub enum End {
    /// There is a text to be put.
    Told(Ending),
    /// Memory was refused, and nothing is put.
    Memory,
}

impl From<AllocError> for End {
    ghost use Rattle.std.specs.Prelude.{◌≡◌};
    ghost use Rattle.orca_cli.specs.declared.ending.End.TheVariants.{Memory};

    ghost from_gives = { λ _ end. end ≡ Memory };

    fn from(_refused: AllocError) -> End {
        End::Memory
    }
}

impl Ending {
    /// A status with one text.
    pub fn of(alloc: Global, status: Status, text: Vec<u8>) -> Result<Ending, AllocError>
        ensures { IfOk result (λ ending. EndsAs ending status text.items) }
    {
        let mut texts = Vec::new(alloc);
        texts.push(text)?;
        Ok(Ending { status, texts })
    }
}

/// The status of a run whose sink was finished. Text that was held back may be lost only then: that is
/// a write fault, whatever the status was.
pub fn finished(status: Status, written: Result<(), SinkError>) -> Status
    ensures ok { OnOk written (result ≡ status) }
    ensures failed { OnErr written (result ≡ Status.WriteFault) }
{
    match written {
        Ok(()) => status,
        Err(_) => Status::WriteFault,
    }
}

/// A status with a text of one line.
pub fn line(alloc: Global, status: Status, line: &str) -> Result<Ending, AllocError>
    ensures { IfOk result (λ ending. EndsAs ending status line.now) }
{
    let text = line.as_bytes().to_vec(alloc)?;
    Ending::of(alloc, status, text)
}

/// The catalogue is refused for this cause.
pub fn refused_catalog(alloc: Global, cause: &str) -> Result<Ending, AllocError>
    ensures { IfOk result
        (λ ending. EndsAs ending Status.CatalogRefused (texts.catalog_refused cause.now)) }
{
    let text = format!(in alloc; "catalog refused: {cause}\n")?;
    line(alloc, Status::CatalogRefused, &text)
}

/// The query is refused for this cause.
pub fn refused_query(alloc: Global, cause: &str) -> Result<Ending, AllocError>
    ensures { IfOk result
        (λ ending. EndsAs ending Status.QueryRefused (texts.query_refused cause.now)) }
{
    let text = format!(in alloc; "query refused: {cause}\n")?;
    line(alloc, Status::QueryRefused, &text)
}

/// The file of this name couldn't be read.
pub fn failed_read(alloc: Global, name: &str) -> Result<Ending, AllocError>
    ensures { IfOk result (λ ending. EndsAs ending Status.ReadFault (texts.read_fault name.now)) }
{
    let text = format!(in alloc; "read fault: {name}\n")?;
    line(alloc, Status::ReadFault, &text)
}

/// The query has more members and goals than this capacity.
pub fn too_many_entries(alloc: Global, capacity: u32) -> Result<Ending, AllocError>
    ensures { IfOk result
        (λ ending. EndsAs ending Status.TooManyEntries (texts.too_many_entries capacity)) }
{
    let text = format!(in alloc; "too many entries: capacity {capacity}\n")?;
    line(alloc, Status::TooManyEntries, &text)
}

/// The text is that of a valid plan, which costs this.
pub fn valid_plan(alloc: Global, cost: u64) -> Result<Ending, AllocError>
    ensures { IfOk result (λ ending. EndsAs ending Status.Planned (texts.valid_plan cost)) }
{
    let text = format!(in alloc; "valid cost {cost}\n")?;
    line(alloc, Status::Planned, &text)
}

/// The text is no valid plan, for this cause.
pub fn refused_plan(alloc: Global, cause: &str) -> Result<Ending, AllocError>
    ensures { IfOk result
        (λ ending. EndsAs ending Status.PlanRefused (texts.plan_refused cause.now)) }
{
    let text = format!(in alloc; "plan refused: {cause}\n")?;
    line(alloc, Status::PlanRefused, &text)
}

/// The dump is refused for this cause.
pub fn refused_dump(alloc: Global, cause: &str) -> Result<Ending, AllocError>
    ensures { IfOk result
        (λ ending. EndsAs ending Status.DumpRefused (texts.dump_refused cause.now)) }
{
    let text = format!(in alloc; "dump refused: {cause}\n")?;
    line(alloc, Status::DumpRefused, &text)
}

/// The list of queries is refused for this cause.
pub fn refused_batch(alloc: Global, cause: &str) -> Result<Ending, AllocError>
    ensures { IfOk result
        (λ ending. EndsAs ending Status.BatchRefused (texts.batch_refused cause.now)) }
{
    let text = format!(in alloc; "batch refused: {cause}\n")?;
    line(alloc, Status::BatchRefused, &text)
}
