//! How a run ends: its status, the stage that it was at, and its exit status.

ghost use Rattle.std.specs.Prelude.{◌≡◌};
ghost use Rattle.run_plan.specs.Stage.{stage_of, code_of};

pub use remote_lookup::{KeyFault, RemoteKey};
pub use sq_bind::BindFault;
pub use sq_parse::ParseFault;
pub use table_csv::TableFault;

/// A file that the words name: the script; a table, counted from 0 in the order of the words; the
/// heading of a remote, counted from 0; or the file of a remote's key.
#[derive(Clone, Copy, Debug, PartialEq, Eq)]
pub enum FileOf {
    Script,
    Table(u32),
    Heading(u32),
    Key(RemoteKey),
}

/// What passed a limit. Tables and remotes count from 0, statements from 1.
#[derive(Clone, Copy, Debug, PartialEq, Eq)]
pub enum LimitOf {
    /// A file has more than 67,108,864 bytes.
    File { file: FileOf },
    /// The script has conditions that are too deep, or too many statements.
    Parse { fault: ParseFault },
    /// A table has too many columns or rows.
    Table { table: u32, fault: TableFault },
    /// A statement has too many aliases, conjuncts or terms.
    Bind { statement: u32, fault: BindFault },
    /// A statement needs more than 10,000 keys of a remote.
    Keys { remote: u32 },
    /// The needed keys of a remote have more than 4,000,000 rows.
    Rows { remote: u32 },
}

/// How a run ended. Tables and remotes count from 0, statements and accesses from 1. No fault is
/// `Memory`, and one that passes a limit stands in `Limit` alone, but for those of a remote's files.
#[derive(Clone, Copy, Debug, PartialEq, Eq)]
pub enum Status {
    /// Each answer was written, whole.
    Done,
    /// The words aren't of the form of the command line, or ask for what isn't run yet.
    Usage,
    /// The script isn't a script.
    Script { fault: ParseFault },
    /// A statement can't be bound to the tables.
    Bind { statement: u32, fault: BindFault },
    /// A file isn't a table.
    BadTable { table: u32, fault: TableFault },
    /// The heading file of a remote isn't a table, has a row, or has no INTEGER column of the name
    /// that the remote is looked up by.
    BadHeading { remote: u32 },
    /// The file of a needed key isn't a table of its remote, or has a record of another key.
    BadKey { at: RemoteKey, why: KeyFault },
    /// An access names a column that its table lacks.
    NoColumn { access: u32 },
    /// There is no file of that name.
    NotFound { file: FileOf },
    /// A file couldn't be read.
    Read { file: FileOf },
    /// The output didn't take what was written.
    Write,
    /// Something passed a limit.
    Limit { of: LimitOf },
    /// Want of memory.
    Memory,
}

/// What a run was at when it ended.
#[derive(Clone, Copy, Debug, PartialEq, Eq)]
pub enum Stage {
    /// The words of the command line.
    Words,
    /// A file that is loaded.
    Files,
    /// The script and its statements.
    Script,
    /// The tables and their columns.
    Tables,
    /// All of the run, which is done.
    Run,
    /// The output.
    Output,
    /// A limit, wherever the run was.
    Limits,
    /// The memory, wherever the run was.
    Memory,
}

impl Stage {
    /// The exit status of a run that ends at this stage: 0 where it is done, 2 for the words, 3 for
    /// the script and its statements, 4 for a table, 5 for a file that isn't there or can't be read,
    /// 6 for the output, 7 for a limit, 9 for want of memory.
    pub fn code(self) -> u8
        ensures { result ≡ code_of self }
    {
        match self {
            Stage::Run => 0,
            Stage::Words => 2,
            Stage::Script => 3,
            Stage::Tables => 4,
            Stage::Files => 5,
            Stage::Output => 6,
            Stage::Limits => 7,
            Stage::Memory => 9,
        }
    }
}

impl Status {
    /// What the run was at.
    pub fn stage(&self) -> Stage
        ensures { result ≡ stage_of self.now }
    {
        match self {
            Status::Done => Stage::Run,
            Status::Usage => Stage::Words,
            Status::Script { .. } | Status::Bind { .. } => Stage::Script,
            Status::BadTable { .. }
            | Status::BadHeading { .. }
            | Status::BadKey { .. }
            | Status::NoColumn { .. } => Stage::Tables,
            Status::NotFound { .. } | Status::Read { .. } => Stage::Files,
            Status::Write => Stage::Output,
            Status::Limit { .. } => Stage::Limits,
            Status::Memory => Stage::Memory,
        }
    }

    /// The exit status of the program.
    pub fn code(&self) -> u8
        ensures { result ≡ code_of (stage_of self.now) }
    {
        self.stage().code()
    }
}
