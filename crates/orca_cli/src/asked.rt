//! What a run is to do.
use command_line::{Command, Stages};
use dump_replay::DumpOptions;
use query_core::{Catalog, Query};
use request_props::Props;
use sql_reader::Select;

/// A query, and what was found of it.
#[derive(Drop)]
pub struct Asked {
    pub query: Query,
    pub props: Props,
}

/// A query, what was found of it, and the stages in which it is to be planned.
#[derive(Drop)]
pub struct InStages {
    pub asked: Asked,
    pub stages: Stages,
}

/// A query, what was found of it, and a text that is to be checked as its plan.
#[derive(Drop)]
pub struct Checked {
    pub asked: Asked,
    pub plan: Vec<u8>,
}

/// A query that is to be dumped: its bytes, what they are read as, and the catalogue.
#[derive(Drop)]
pub struct Dumped {
    pub catalog: Catalog,
    pub query: Vec<u8>,
    pub select: Select,
}

/// The query of a dump, and what the dump chooses for it.
#[derive(Drop)]
pub struct Replayed {
    pub options: DumpOptions,
    pub asked: Asked,
}

/// A catalogue, and a list with a query over it on each line.
#[derive(Drop)]
pub struct Listed {
    pub catalog: Catalog,
    pub list: Vec<u8>,
}

/// What is to be done.
#[derive(Drop)]
pub enum Work {
    /// One query.
    Query(Asked),
    /// One query, in stages.
    Stages(InStages),
    /// A text that may be a query's plan.
    Check(Checked),
    /// The dump of a query, without a search.
    Dump(Dumped),
    /// The query of a dump.
    Replay(Replayed),
    /// Each line of a list.
    List(Listed),
}

/// What a command asks for, and the command.
#[derive(Drop)]
pub struct Wanted<'w> {
    pub command: Command<'w>,
    pub work: Work,
}
