//! What a run runs.
use catalogue::Catalogue;
use remote_lookup::Remote;
use run_base::Bound;
use sqlite_items::Items;

/// What a run runs: its statements, bound, in order, over the tables of a catalogue; and the remotes
/// among these tables, which have no rows.
#[derive(Drop)]
pub struct Plan {
    /// The statements, bound, in order.
    pub statements: Items<Bound>,
    /// The tables, by name.
    pub catalogue: Catalogue,
    /// The remotes among the tables, which have no rows.
    pub remotes: Items<Remote>,
}
