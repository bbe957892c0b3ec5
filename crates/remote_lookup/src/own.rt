//! An alias's own conjuncts, those in which no other alias occurs, over one row of a table.
ghost use Rattle.std.specs.Prelude.{◌≡◌, ◌<◌, All, List, Some, length, slice_get};
ghost use Rattle.std.specs.List.{list_all};
ghost use Rattle.sq_value.specs.Relation.{Relation};
ghost use Rattle.sq_value.specs.declared.value.Value.{Value as Datum};
ghost use Rattle.sq_expr.specs.Meaning.{value_in};
ghost use Rattle.remote_lookup.specs.Needed as spec;
ghost use Rattle.remote_lookup.specs.Own.{FitOwn, HasSpan, IsReadyOwn, holds_own};

use sq_expr::{Block, Chosen, Conjunct};
use sq_value::{Predicates, Tables, Truth};

// Whether no alias but this one occurs in a conjunct.
fn is_own(conjunct: &Conjunct, alias: u8) -> bool
    requires alias { alias < 12 }
    requires span { HasSpan conjunct.now }
    ensures { result ≡ spec.is_own alias conjunct.now }
{
    let own = 1_u16 << alias;
    conjunct.span | own == own
}

// Whether a conjunct is True of the chosen rows, or isn't an alias's own.
fn holds_if_own<P: Predicates>(
    conjunct: &Conjunct,
    alias: u8,
    rows: &Chosen<'_>,
    functions: &P,
) -> bool
    requires alias { alias < 12 }
    requires ready { IsReadyOwn (P.kinds_of functions.now) rows.now.tables.now rows.now.uses rows.now.rows rows.now.span
        alias conjunct.now }
    ensures { result ≡ holds_own P.gives (value_in rows.now.tables.now rows.now.uses rows.now.rows) alias conjunct.now }
{
    if !is_own(conjunct, alias) {
        return true;
    }
    conjunct.cond.truth(rows, functions) == Truth::True
}

// Whether each of these conjuncts is.
fn all_hold_if_own<P: Predicates>(
    conjuncts: &[Conjunct],
    alias: u8,
    rows: &Chosen<'_>,
    functions: &P,
) -> bool
    requires alias { alias < 12 }
    requires ready { All (IsReadyOwn (P.kinds_of functions.now) rows.now.tables.now rows.now.uses rows.now.rows
        rows.now.span alias) conjuncts.now }
    ensures { result ≡ list_all (holds_own P.gives (value_in rows.now.tables.now rows.now.uses rows.now.rows) alias)
        conjuncts.now }
{
    for conjunct in conjuncts {
        if !holds_if_own(conjunct, alias, rows, functions) {
            return false;
        }
    }
    true
}

/// Whether an alias's own conjuncts are True of a row of a table, which has the columns of the alias's.
pub(crate) fn passes_own<P: Predicates>(
    block: &Block,
    tables: &Tables,
    table: u32,
    functions: &P,
    alias: u8,
    row: u32,
) -> bool
    requires alias { alias < 12 }
    requires fits { FitOwn (P.kinds_of functions.now) tables.now table alias block.now }
    requires there { (t : Relation) × (slice_get tables.now table ≡ Some t) × (row < length t.rows) }
    ensures { (t : Relation) (cells : List Datum) → slice_get tables.now table ≡ Some t
        → slice_get t.rows row ≡ Some cells
        → result ≡ spec.passes_own P.gives block.now alias cells }
{
    let rows = Chosen {
        tables,
        uses: [table; 12],
        rows: [row; 12],
        span: 1_u16 << alias,
    };
    all_hold_if_own(block.conjuncts.as_slice(), alias, &rows, functions)
}
