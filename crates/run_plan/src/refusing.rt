//! The statuses of faults: one that passes a limit is told from the others, and so is want of memory.

ghost use Rattle.std.specs.Prelude.{◌≡◌};
ghost use Rattle.run_plan.specs.Faults as spec;

use crate::status::{BindFault, FileOf, LimitOf, ParseFault, Status, TableFault};
use remote_lookup::RemoteFault;

/// The status of a script's fault.
pub fn script_status(fault: ParseFault) -> Status
    ensures { result ≡ spec.script_status fault }
{
    match fault {
        ParseFault::Memory => Status::Memory,
        ParseFault::TooDeep { .. } | ParseFault::TooManyStatements { .. } => Status::Limit {
            of: LimitOf::Parse { fault },
        },
        _ => Status::Script { fault },
    }
}

/// The status of a fault of the table with this number.
pub fn table_status(table: u32, fault: TableFault) -> Status
    ensures { result ≡ spec.table_status table fault }
{
    match fault {
        TableFault::Memory => Status::Memory,
        TableFault::TooManyColumns | TableFault::TooManyRows => Status::Limit {
            of: LimitOf::Table { table, fault },
        },
        _ => Status::BadTable { table, fault },
    }
}

/// The status of a fault of the statement with this number, which counts from 1.
pub fn bind_status(statement: u32, fault: BindFault) -> Status
    ensures { result ≡ spec.bind_status statement fault }
{
    match fault {
        BindFault::Memory => Status::Memory,
        BindFault::TooManyAliases { .. }
        | BindFault::TooManyConjuncts { .. }
        | BindFault::TooManyTerms { .. } => Status::Limit {
            of: LimitOf::Bind { statement, fault },
        },
        _ => Status::Bind { statement, fault },
    }
}

/// The status of a refusal of the needed keys of a statement.
pub fn remote_status(fault: RemoteFault) -> Status
    ensures { result ≡ spec.remote_status fault }
{
    match fault {
        RemoteFault::Read { at } => Status::Read {
            file: FileOf::Key(at),
        },
        RemoteFault::TooLong { at } => Status::Limit {
            of: LimitOf::File {
                file: FileOf::Key(at),
            },
        },
        RemoteFault::BadFile { at, why } => Status::BadKey { at, why },
        RemoteFault::TooManyKeys { remote } => Status::Limit {
            of: LimitOf::Keys { remote },
        },
        RemoteFault::TooManyRows { remote } => Status::Limit {
            of: LimitOf::Rows { remote },
        },
        RemoteFault::Memory => Status::Memory,
    }
}
