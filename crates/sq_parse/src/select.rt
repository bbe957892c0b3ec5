//! Reads select lists, sources and sort keys.

ghost use Rattle.std.specs.Prelude.{◌≡◌, Ok, IfOk, IfErr};
ghost use Rattle.sq_parse.specs.Reading.{Reads};
ghost use Rattle.sq_parse.specs.Reader as spec;
ghost use Rattle.sq_parse.specs.Tree as tree;

use crate::cursor::Cursor;
use crate::names::{column, name};
use crate::stop::Stop;
use crate::tree::{ColRef, Item, Items, Name, OrderItem, Source};
use sq_expr::AggKind;
use sq_token::{Mark, is_agg, is_name, is_reckoned, same};
use sq_value::{SortWay, SqText};
use sqlite_items::Items as List;
use std::alloc::Global;

// AS and a name, or a name alone.
#[tactic(auto, unfolding(crate::specs::Reader::alias))]
fn alias(alloc: Global, tokens: &mut Cursor<'_>) -> Result<Name, Stop>
    ensures { Reads (spec.alias tokens.old) result tokens.new }
{
    tokens.eat(Mark::As);
    name(alloc, tokens)
}

#[tactic(auto, unfolding(crate::specs::Reader::optional_alias))]
fn optional_alias(alloc: Global, tokens: &mut Cursor<'_>) -> Result<Option<Name>, Stop>
    ensures { Reads (spec.optional_alias tokens.old) result tokens.new }
{
    let mark = tokens.peek();
    if same(mark, Mark::As) || is_name(mark) {
        let found = alias(alloc, tokens)?;
        Ok(Some(found))
    } else {
        Ok(None)
    }
}

// The item of a column that was read.
#[tactic(auto, unfolding(crate::specs::Reader::column_item))]
fn column_item(alloc: Global, tokens: &mut Cursor<'_>, column: ColRef) -> Result<Item, Stop>
    ensures { Reads (spec.column_item column tokens.old) result tokens.new }
{
    let alias = optional_alias(alloc, tokens)?;
    Ok(Item::Col(column, alias))
}

// What comes behind a name and a dot: everything, or the column's name.
#[tactic(auto, unfolding(crate::specs::Reader::behind_dot))]
fn behind_dot(alloc: Global, tokens: &mut Cursor<'_>, first: Name) -> Result<Item, Stop>
    ensures { Reads (spec.behind_dot first tokens.old) result tokens.new }
{
    if tokens.eat(Mark::Star) {
        return Ok(Item::AllOf(first));
    }
    let column = name(alloc, tokens)?;
    column_item(
        alloc,
        tokens,
        ColRef {
            alias: Some(first),
            column,
        },
    )
}

// What comes behind an item's first name.
#[tactic(auto, unfolding(crate::specs::Reader::behind_name), using(crate::proofs::Loops::after_is))]
fn behind_name(alloc: Global, tokens: &mut Cursor<'_>, first: Name) -> Result<Item, Stop>
    ensures { Reads (spec.behind_name first tokens.old) result tokens.new }
{
    if tokens.eat(Mark::Dot) {
        return behind_dot(alloc, tokens, first);
    }
    column_item(
        alloc,
        tokens,
        ColRef {
            alias: None,
            column: first,
        },
    )
}

// All columns of an alias, or a column.
#[tactic(auto, unfolding(crate::specs::Reader::plain_item))]
fn plain_item(alloc: Global, tokens: &mut Cursor<'_>) -> Result<Item, Stop>
    ensures { Reads (spec.plain_item tokens.old) result tokens.new }
{
    let first = name(alloc, tokens)?;
    behind_name(alloc, tokens, first)
}

// What COUNT is of: all members, or a column.
#[tactic(auto, unfolding(crate::specs::Reader::counted))]
fn counted(alloc: Global, tokens: &mut Cursor<'_>) -> Result<(AggKind, Option<ColRef>), Stop>
    ensures { Reads (spec.counted tokens.old) result tokens.new }
{
    if tokens.eat(Mark::Star) {
        return Ok((AggKind::CountAll, None));
    }
    let of = column(alloc, tokens)?;
    Ok((AggKind::Count, Some(of)))
}

// COUNT and what it is of.
#[tactic(auto, unfolding(crate::specs::Reader::count_of))]
fn count_of(
    alloc: Global,
    tokens: &mut Cursor<'_>,
) -> Result<(u32, (AggKind, Option<ColRef>)), Stop>
    ensures { Reads (spec.count_of tokens.old) result tokens.new }
{
    let at = tokens.at();
    tokens.expect(Mark::Count)?;
    tokens.expect(Mark::Open)?;
    let of = counted(alloc, tokens)?;
    tokens.expect(Mark::Close)?;
    Ok((at, of))
}

// The aggregate of values that a word names.
fn reckoned_by(mark: Mark) -> AggKind
    ensures { result ≡ tree.reckoned_by mark }
{
    if same(mark, Mark::Sum) {
        AggKind::Sum
    } else if same(mark, Mark::Min) {
        AggKind::Min
    } else {
        AggKind::Max
    }
}

// SUM, MIN or MAX, and the column that it is of.
#[tactic(auto, unfolding(crate::specs::Reader::reckoned))]
fn reckoned(
    alloc: Global,
    tokens: &mut Cursor<'_>,
) -> Result<(u32, (AggKind, Option<ColRef>)), Stop>
    ensures { Reads (spec.reckoned tokens.old) result tokens.new }
{
    let at = tokens.at();
    let mark = tokens.peek();
    if !is_reckoned(mark) {
        return Err(Stop::Syntax);
    }
    tokens.advance();
    tokens.expect(Mark::Open)?;
    let of = column(alloc, tokens)?;
    tokens.expect(Mark::Close)?;
    Ok((at, (reckoned_by(mark), Some(of))))
}

// An aggregate.
#[tactic(auto, unfolding(crate::specs::Reader::aggregate))]
fn aggregate(
    alloc: Global,
    tokens: &mut Cursor<'_>,
) -> Result<(u32, (AggKind, Option<ColRef>)), Stop>
    ensures { Reads (spec.aggregate tokens.old) result tokens.new }
{
    if tokens.sees(Mark::Count) {
        count_of(alloc, tokens)
    } else {
        reckoned(alloc, tokens)
    }
}

// An aggregate and the name that it gets.
#[tactic(auto, unfolding(crate::specs::Reader::aggregate_item))]
fn aggregate_item(alloc: Global, tokens: &mut Cursor<'_>) -> Result<Item, Stop>
    ensures { Reads (spec.aggregate_item tokens.old) result tokens.new }
{
    let (at, (kind, column)) = aggregate(alloc, tokens)?;
    let name = optional_alias(alloc, tokens)?;
    Ok(Item::Agg {
        at,
        kind,
        column,
        name,
    })
}

#[tactic(auto, unfolding(crate::specs::Reader::item))]
fn item(alloc: Global, tokens: &mut Cursor<'_>) -> Result<Item, Stop>
    ensures { Reads (spec.item tokens.old) result tokens.new }
{
    if is_agg(tokens.peek()) && same(tokens.second(), Mark::Open) {
        aggregate_item(alloc, tokens)
    } else {
        plain_item(alloc, tokens)
    }
}

// Items with commas between.
#[tactic(auto, unfolding(crate::specs::Reader::items))]
fn items(alloc: Global, tokens: &mut Cursor<'_>) -> Result<List<Item>, Stop>
    ensures { Reads (spec.items tokens.old) result tokens.new }
{
    let mut found = List::new(alloc);
    found.push(item(alloc, tokens)?)?;
    'more: while tokens.sees(Mark::Comma) {
        tokens.advance();
        found.push(item(alloc, tokens)?)?;
    }
    Ok(found)
}

/// A select list.
#[tactic(auto, unfolding(crate::specs::Reader::select_list))]
pub fn select_list(alloc: Global, tokens: &mut Cursor<'_>) -> Result<Items, Stop>
    ensures { Reads (spec.select_list tokens.old) result tokens.new }
{
    if tokens.eat(Mark::Star) {
        return Ok(Items::Star);
    }
    let found = items(alloc, tokens)?;
    Ok(Items::List(found))
}

// A copy of a name.
fn copy_of(alloc: Global, of: &Name) -> Result<Name, Stop>
    ensures copy { IfOk result (λ copy. copy ≡ of.now) }
    ensures memory { IfErr result (λ s. s ≡ Stop.Memory) }
{
    let text = SqText::of(alloc, of.text.as_str())?;
    Ok(Name { text, at: of.at })
}

/// A table and its alias, which is its own name where none is written.
#[tactic(auto, unfolding(crate::specs::Reader::source))]
pub fn source(alloc: Global, tokens: &mut Cursor<'_>) -> Result<Source, Stop>
    ensures { Reads (spec.source tokens.old) result tokens.new }
{
    let table = name(alloc, tokens)?;
    let alias = match optional_alias(alloc, tokens)? {
        Some(alias) => alias,
        None => copy_of(alloc, &table)?,
    };
    Ok(Source {
        table,
        alias,
        on: None,
    })
}

// ASC, DESC or nothing: whether the order falls.
#[tactic(auto, unfolding(crate::specs::Reader::falls))]
fn falls(tokens: &mut Cursor<'_>) -> bool
    ensures { spec.falls tokens.old ≡ Ok (result, tokens.new) }
{
    let falls = tokens.eat(Mark::Desc);
    if !falls {
        tokens.eat(Mark::Asc);
    }
    falls
}

// NULLS FIRST, NULLS LAST or nothing: whether nulls come first, where it is said.
#[tactic(auto, unfolding(crate::specs::Reader::nulls_first))]
fn nulls_first(tokens: &mut Cursor<'_>) -> Result<Option<bool>, Stop>
    ensures { Reads (spec.nulls_first tokens.old) result tokens.new }
{
    if !tokens.eat(Mark::Nulls) {
        return Ok(None);
    }
    let first = tokens.eat(Mark::First);
    if !first {
        tokens.expect(Mark::Last)?;
    }
    Ok(Some(first))
}

// A column and how it is sorted.
#[tactic(auto, unfolding(crate::specs::Reader::key))]
fn key(alloc: Global, tokens: &mut Cursor<'_>) -> Result<OrderItem, Stop>
    ensures { Reads (spec.key tokens.old) result tokens.new }
{
    let column = column(alloc, tokens)?;
    let descending = falls(tokens);
    let nulls_first = nulls_first(tokens)?.unwrap_or(descending);
    Ok(OrderItem {
        column,
        way: SortWay {
            descending,
            nulls_first,
        },
    })
}

/// Sort keys with commas between.
#[tactic(auto, unfolding(crate::specs::Reader::keys))]
fn keys(alloc: Global, tokens: &mut Cursor<'_>) -> Result<List<OrderItem>, Stop>
    ensures { Reads (spec.keys tokens.old) result tokens.new }
{
    let mut found = List::new(alloc);
    found.push(key(alloc, tokens)?)?;
    'more: while tokens.sees(Mark::Comma) {
        tokens.advance();
        found.push(key(alloc, tokens)?)?;
    }
    Ok(found)
}

/// DISTINCT, ALL or nothing: whether it is DISTINCT.
#[tactic(auto, unfolding(crate::specs::Reader::extent))]
pub fn extent(tokens: &mut Cursor<'_>) -> bool
    ensures { spec.extent tokens.old ≡ Ok (result, tokens.new) }
{
    let distinct = tokens.eat(Mark::Distinct);
    if !distinct {
        tokens.eat(Mark::All);
    }
    distinct
}

/// Columns with commas between.
#[tactic(auto, unfolding(crate::specs::Reader::columns))]
fn columns(alloc: Global, tokens: &mut Cursor<'_>) -> Result<List<ColRef>, Stop>
    ensures { Reads (spec.columns tokens.old) result tokens.new }
{
    let mut found = List::new(alloc);
    found.push(column(alloc, tokens)?)?;
    'more: while tokens.sees(Mark::Comma) {
        tokens.advance();
        found.push(column(alloc, tokens)?)?;
    }
    Ok(found)
}

/// GROUP BY and its columns; none where it isn't written.
#[tactic(auto, unfolding(crate::specs::Reader::groups))]
pub fn groups(alloc: Global, tokens: &mut Cursor<'_>) -> Result<List<ColRef>, Stop>
    ensures { Reads (spec.groups tokens.old) result tokens.new }
{
    if !tokens.eat(Mark::Group) {
        return Ok(List::new(alloc));
    }
    tokens.expect(Mark::By)?;
    let found = columns(alloc, tokens)?;
    Ok(found)
}

/// ORDER BY and its keys; none where it isn't written.
#[tactic(auto, unfolding(crate::specs::Reader::order))]
pub fn order(alloc: Global, tokens: &mut Cursor<'_>) -> Result<List<OrderItem>, Stop>
    ensures { Reads (spec.order tokens.old) result tokens.new }
{
    if !tokens.eat(Mark::Order) {
        return Ok(List::new(alloc));
    }
    tokens.expect(Mark::By)?;
    let found = keys(alloc, tokens)?;
    Ok(found)
}
