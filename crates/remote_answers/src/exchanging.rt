//! Exchanges the tables of remotes in a catalogue for others.

ghost use Rattle.std.specs.Prelude.{◌≡◌};
ghost use Rattle.remote_lookup.specs.Filled as filled;
ghost use Rattle.remote_answers.specs.Exchanged.{AreTablesOf, HaveColumns, HaveTables};

use catalogue::Catalogue;
use remote_lookup::Remote;
use sq_value::Table;

/// Exchanges the tables of remotes in a catalogue for these, one each and with their columns, in order. A second
/// call puts them back.
pub(crate) fn exchange(catalogue: &mut Catalogue, remotes: &[Remote], tables: &mut Vec<Table>)
    requires places { HaveTables catalogue.old.tables remotes.now }
    requires columns { HaveColumns catalogue.old.tables remotes.now tables.old.items }
    ensures exchanged { catalogue.new ≡ record catalogue.old {
      tables = filled.exchanged catalogue.old.tables remotes.now tables.old.items;
    } }
    ensures given { AreTablesOf catalogue.old.tables remotes.now tables.new.items }
{
    for remote in remotes {
        let table = tables.remove(0);
        tables.push_reserved(catalogue.set(remote.table, table));
    }
}
