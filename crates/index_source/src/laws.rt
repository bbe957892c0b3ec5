//! The law that ties look-ups to blocks, as the contract of a function that does nothing.
ghost use Rattle.std.specs.Prelude.{◌≡◌, ◌<◌, ℕ, List, Some, length, slice_get};
ghost use Rattle.sq_value.specs.Rank.{Rank};
ghost use Rattle.sq_value.specs.Relation.{Relation};
ghost use Rattle.sq_expr.specs.declared.block.Block.{Block};
ghost use Rattle.sq_expr.specs.declared.block.AliasUse.{AliasUse};
ghost use Rattle.eddy_meaning.specs.Keys.{rows_of_key};
ghost use Rattle.index_source.specs.Rows.{rows_with};

/// The law of look-ups. It does nothing.
///
/// The rows of a key at an alias are those of the alias's table.
pub fn lookup_law()
    ensures { (block : Block) (tables : List Relation) (alias column : ℕ) (u : AliasUse) (table : Relation) (key : Rank)
        → alias < 12 → slice_get block.aliases alias ≡ Some u → slice_get tables u.table ≡ Some table
        → rows_of_key block tables alias column key ≡ rows_with table column key }
{}
