//! Scans, look-ups and marks worked out by hand.

ghost use Rattle.std.specs.Prelude.{◌≡◌, ◌<◌, true, length, IfOk};
ghost use Rattle.sq_value.specs.Key.{rank_of_key};
ghost use Rattle.engine_cases.specs.Given.{IsGiven, IsModuleOf, HasNone};

use crate::given::block_of;
use crate::tuples::use_of;
use case_kit::{catalogue_of_lines, push_listed};
use index_source::{Lookup, lookup_law};
use scan_source::Scan;
use sq_expr::Block;
use sq_value::{Key, Memory, NoPredicates, Table, Tables};
use std::alloc::Global;
use std::test::Fail;
use stem_module::{Bounce, Stem};

/// A table of orders, whose column 1 is looked up.
const ORDERS: &str = "ord oid,cid,amt/10,1,5/11,1,7/12,2,5/13,,9";

/// A join of customers with orders, which are looked up by that column.
const JOIN: &str = "SELECT name, amt FROM cust c, ord o WHERE c.id = o.cid";

const LOOKED_UP: &str = "\
cust id,name/1,Ada/2,Bob/3,
ord oid,cid,amt/10,1,5/11,1,7/12,2,5/13,,9";

#[test]
fn scans_end(rt: HostRuntime) -> Result<(), Fail> {
    let mut scan = Scan::new(3);
    assert!(rt; !scan.is_at_end());
    let rows = [scan.next(), scan.next(), scan.next()];
    assert_eq!(rt; rows, [Some(0), Some(1), Some(2)]);
    assert!(rt; scan.is_at_end());
    assert_eq!(rt; (scan.next(), scan.next()), (None, None));
    assert_eq!(rt; Scan::new(0).next(), None);
    Ok(())
}

// The rows of keys, by a look-up in a column, if the table has it.
fn rows_text(alloc: Global, table: &Table, column: u32, keys: &[Key<'_>]) -> Result<String, Fail> {
    let mut text = String::new(alloc);
    if column as usize >= table.columns().len() {
        return Ok(text);
    }
    let lookup = Lookup::new(alloc, table, column)?;
    for key in keys {
        let rows = lookup.rows(key);
        push_listed(&mut text, " ", format!(in alloc; "{rows:?}")?.as_str())?;
    }
    Ok(text)
}

// The first table of a catalogue, by its line.
fn rows_in(alloc: Global, column: u32, keys: &[Key<'_>]) -> Result<String, Fail> {
    let catalogue = catalogue_of_lines(alloc, ORDERS)?;
    if catalogue.tables().len() == 0 {
        return Ok(String::new(alloc));
    }
    rows_text(alloc, catalogue.tables().get(0), column, keys)
}

#[test]
fn rows_of_keys_are_found(rt: HostRuntime) -> Result<(), Fail> {
    let keys = [
        Key::Number(1_000_000),
        Key::Number(9_000_000),
        Key::Number(2_000_000),
        Key::Text("1"),
    ];
    let rows = rows_in(rt.alloc(), 1, &keys)?;
    assert_eq!(rt; rows.as_str(), "[0, 1] [] [2] []");
    let rows = rows_in(rt.alloc(), 0, &keys)?;
    assert_eq!(rt; rows.as_str(), "[] [] [] []");
    Ok(())
}

// Whether no row of an alias has a key in its look-up column.
fn has_none(
    alloc: Global,
    block: &Block,
    tables: &Tables,
    alias: u8,
    key: &Key<'_>,
) -> Result<bool, Memory>
    requires given { IsGiven tables.now block.now }
    requires alias { alias < length block.now.aliases }
    ensures { IfOk result (λ none. none ≡ true → HasNone block.now tables.now alias (rank_of_key key.now)) }
{
    lookup_law();
    let item = use_of(block, alias);
    let Some(column) = item.access.look_up else {
        return Ok(false);
    };
    let lookup = Lookup::new(alloc, tables.get(item.table), column)?;
    Ok(lookup.rows(key).is_empty())
}

// Asks for a key that no row has, and where it was asked for before sets its end mark.
fn end_asked<'t>(
    alloc: Global,
    block: &Block,
    tables: &Tables,
    alias: u8,
    stem: &mut Stem<'t, NoPredicates>,
    key: Key<'t>,
) -> Result<Bounce, Memory>
    requires of { IsModuleOf block.now tables.now alias stem.old }
    requires none { HasNone block.now tables.now alias (rank_of_key key) }
{
    // For the proof alone.
    let _block = block;
    let _tables = tables;
    let _alias = alias;
    let met = stem.ask(alloc, key)?;
    match met {
        Bounce::Asked => stem.mark_end(&key),
        _ => {}
    }
    Ok(met)
}

// What keys meet that are asked for one after another, of a module of alias 1, and how many marks there are then.
fn asked(
    alloc: Global,
    block: &Block,
    tables: &Tables,
    keys: &[Key<'static>],
) -> Result<(Vec<Bounce>, usize), Fail>
    requires { IsGiven tables.now block.now }
{
    let mut met = Vec::new(alloc);
    if block.aliases.len() < 2 {
        return Ok((met, 0));
    }
    let mut stem = Stem::new(alloc, block, tables, &NoPredicates, 1)?;
    for key in keys {
        met.push(stem.ask(alloc, *key)?)?;
    }
    Ok((met, stem.marks().len()))
}

// What a key that no row has meets: the first time, the second, after which its end mark is set, and the third.
fn ended(
    alloc: Global,
    block: &Block,
    tables: &Tables,
    key: Key<'static>,
) -> Result<Vec<Bounce>, Fail>
    requires { IsGiven tables.now block.now }
{
    let mut met = Vec::new(alloc);
    if block.aliases.len() < 2 || !has_none(alloc, block, tables, 1, &key)? {
        return Ok(met);
    }
    let mut stem = Stem::new(alloc, block, tables, &NoPredicates, 1)?;
    met.push(stem.ask(alloc, key)?)?;
    met.push(end_asked(alloc, block, tables, 1, &mut stem, key)?)?;
    met.push(stem.ask(alloc, key)?)?;
    Ok(met)
}

#[test]
fn keys_are_asked_for_once(rt: HostRuntime) -> Result<(), Fail> {
    let catalogue = catalogue_of_lines(rt.alloc(), LOOKED_UP)?;
    let Some(block) = block_of(rt.alloc(), &catalogue, "s 1", JOIN)? else {
        panic!(rt; "no block")
    };
    let keys = [
        Key::Number(9_000_000),
        Key::Number(9_000_000),
        Key::Number(1_000_000),
        Key::Number(9_000_000),
    ];
    let (met, marks) = asked(rt.alloc(), &block, catalogue.tables(), &keys)?;
    let wanted = [Bounce::Ask, Bounce::Asked, Bounce::Ask, Bounce::Asked];
    assert_eq!(rt; met.as_slice(), wanted.as_slice());
    assert_eq!(rt; marks, 2);
    Ok(())
}

#[test]
fn keys_are_ended(rt: HostRuntime) -> Result<(), Fail> {
    let catalogue = catalogue_of_lines(rt.alloc(), LOOKED_UP)?;
    let Some(block) = block_of(rt.alloc(), &catalogue, "s 1", JOIN)? else {
        panic!(rt; "no block")
    };
    let met = ended(
        rt.alloc(),
        &block,
        catalogue.tables(),
        Key::Number(9_000_000),
    )?;
    let wanted = [Bounce::Ask, Bounce::Asked, Bounce::Complete];
    assert_eq!(rt; met.as_slice(), wanted.as_slice());
    let met = ended(
        rt.alloc(),
        &block,
        catalogue.tables(),
        Key::Number(1_000_000),
    )?;
    assert_eq!(rt; met.len(), 0);
    Ok(())
}
