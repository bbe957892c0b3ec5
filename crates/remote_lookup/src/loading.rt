//! Loads the needed keys of remotes, and their rows.
ghost use Rattle.std.specs.Prelude.{◌≡◌, ◌≢◌, ◌≤◌, All, IfOk, IfErr, OnOk, Err, length, map};
ghost use Rattle.outside.specs.Faults.{NeverFalls, RoseOrFull};
ghost use Rattle.sq_expr.specs.Fits.{IsFit};
ghost use Rattle.sq_expr.specs.Reach.{IsReachable};
ghost use Rattle.remote_lookup.specs.KeyFiles.{table_columns};
ghost use Rattle.remote_lookup.specs.Loaded.{FitRemotes, AnswersOver, UnlessReadOrMemory, NamesOneOf};
ghost use Rattle.remote_lookup.specs.declared.remote.RemoteKey.{RemoteKey as Key};

use crate::asking::ask_tables;
use crate::asks::asks_of;
use crate::query::Query;
use crate::remote::{KeyFault, Loaded, Remote, RemoteFault};
use crate::rounds::{Work, begun, empty_tables, load_rounds};
use outside::Folder;
use sq_expr::Block;
use sq_value::{Predicates, Tables};
use std::alloc::Global;
use table_csv::TableFault;

/// Loads the needed keys of the remotes of a block, in rounds, and the rows of their files.
///
/// What is answered goes by what is given of each key's file, its bytes or that it is missing. That is what the folder
/// holds, where it tells that. So the clause binds over a folder that tells nothing, too.
///
/// The first round loads the keys that literals and rows of the other tables ask for, and each further round those that
/// the rows of the last one newly ask for. A round first counts the keys, and then loads by remote and rising key.
/// A file that isn't there has no rows.
///
/// The block fits the tables and the predicates, and is reachable. The remotes' tables are different and empty, their
/// look-up columns are INTEGER, and their aliases have a look-up by it and no scan.
///
/// # Errors
/// The first refusal:
/// - `Read`: a key's file wasn't read, and the folder's count of faults rose.
/// - `TooLong`: a key's file has more than 67,108,864 bytes.
/// - `BadFile`: a key's file isn't a table, has other columns, or a record with another key.
/// - `TooManyKeys`: at a round's start more than 10,000 keys of the remote were needed.
/// - `TooManyRows`: with a key's file the remote has more than 4,000,000 rows.
/// - `Memory`: there is no memory.
pub fn load_needed<P: Predicates, F: Folder>(
    alloc: Global,
    block: &Block,
    tables: &Tables,
    remotes: &[Remote],
    functions: &P,
    folder: &mut F,
) -> Result<Loaded, RemoteFault>
    requires fits { IsFit (P.kinds_of functions.now) tables.now block.now }
    requires reachable { IsReachable block.now }
    requires remotes { FitRemotes block.now tables.now remotes.now }
    ensures keeps { F.holds folder.new ≡ F.holds folder.old }
    ensures counts { NeverFalls (F.faults folder.old) (F.faults folder.new) }
    ensures kept { OnOk result (F.faults folder.new ≡ F.faults folder.old) }
    ensures answered { AnswersOver P.gives block.now tables.now remotes.now (F.holds folder.old) result }
    ensures columns { IfOk result (λ loaded. map (λ t. t.columns) loaded.tables.items
        ≡ map (λ r. table_columns tables.now r.table) remotes.now) }
    ensures few { IfOk result (λ loaded. All (λ t. length t.rows ≤ 4000000) loaded.tables.items) }
    ensures refused_kept { IfErr result (λ fault. UnlessReadOrMemory fault
        (F.faults folder.new ≡ F.faults folder.old)) }
    ensures read { IfErr result (λ fault. (at : Key) → fault ≡ RemoteFault.Read at
        → RoseOrFull (F.faults folder.old) (F.faults folder.new)) }
    ensures names { IfErr result (NamesOneOf (length remotes.now)) }
    ensures no_memory { (at : Key) → result ≢ Err (RemoteFault.BadFile at (KeyFault.Table TableFault.Memory)) }
{
    // For the proof alone.
    let _count = tables.len();
    let asks = asks_of(alloc, block, remotes)?;
    let query = Query {
        block,
        tables,
        remotes,
        functions,
        asks,
    };
    let mut work = begun(alloc, &query)?;
    ask_tables(&query, &mut work.asked)?;
    load_rounds(alloc, &query, &mut work, folder)?;
    let Work { loaded, .. } = work;
    Ok(loaded.gathered(alloc, empty_tables(alloc, &query)?)?)
}
