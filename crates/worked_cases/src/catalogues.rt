//! A catalogue's calls, worked out by hand.
//!
//! A case is a line: a call, a name and the answer, with `|` between them. All lines go to one catalogue.
use catalogue::{Catalogue, CatalogueFault};
use sq_value::{ColType, Column, Memory, SqText, Table, Value, same_columns};
use std::alloc::Global;
use std::test::Fail;

const CASES: &str = "\
find|n|none
add|n|0
add|N|repeated
add|Ab_9|1
find|N|0
find|aB_9|1
find|m|none
count||2
set|1 7|1
set|1 8|7
set|0 5|1
set|1 9|8
find|aB_9|1
count||2";

/// A table of one column x and a row of this number.
fn one_row(alloc: Global, number: i64) -> Result<Table, Memory> {
    let name = SqText::of(alloc, "x")?;
    let kind = ColType::Integer;
    let mut table = Table::new(alloc, vec![in alloc; Column { name, kind }]?)?;
    table.push_row(vec![in alloc; Value::Int(number)]?)?;
    Ok(table)
}

/// The place of a table that is added, or why it is refused.
fn added(alloc: Global, catalogue: &mut Catalogue, name: &str) -> Result<String, Fail> {
    if catalogue.tables().len() > 9 {
        return Err("fewer tables".into());
    }
    match catalogue.add(name, one_row(alloc, 1)?) {
        Ok(place) => Ok(format!(in alloc; "{place}")?),
        Err(CatalogueFault::RepeatedTable) => Ok(String::from_str(alloc, "repeated")?),
        Err(CatalogueFault::Memory) => Ok(String::from_str(alloc, "no memory")?),
    }
}

/// The number in the first row of the table that one with the number given takes the place of.
fn given_back(alloc: Global, catalogue: &mut Catalogue, words: &str) -> Result<String, Fail> {
    let (place, number) = words.split_once(' ').ok_or("a number")?;
    let place = place.parse::<u32>().map_err(|_| Fail::from("a place"))?;
    let number = number.parse::<i64>().map_err(|_| Fail::from("a number"))?;
    let table = one_row(alloc, number)?;
    let tables = catalogue.tables();
    if place >= tables.len() || !same_columns(table.columns(), tables.get(place).columns()) {
        return Err("a table of these columns".into());
    }
    let old = catalogue.set(place, table);
    if old.rows() == 0 || old.columns().is_empty() {
        return Err("a row".into());
    }
    match old.value(0, 0) {
        Value::Int(number) => Ok(format!(in alloc; "{number}")?),
        _ => Err("an integer".into()),
    }
}

fn answer(
    alloc: Global,
    catalogue: &mut Catalogue,
    call: &str,
    name: &str,
) -> Result<String, Fail> {
    match call {
        "add" => added(alloc, catalogue, name),
        "set" => given_back(alloc, catalogue, name),
        "find" => match catalogue.find(name)? {
            Some(place) => Ok(format!(in alloc; "{place}")?),
            None => Ok(String::from_str(alloc, "none")?),
        },
        _ => Ok(format!(in alloc; "{}", catalogue.tables().len())?),
    }
}

#[test]
fn tables_are_found_by_name_but_for_case(rt: HostRuntime) -> Result<(), Fail> {
    let mut catalogue = Catalogue::new(rt.alloc());
    for case in CASES.lines() {
        let (call, rest) = case.split_once('|').ok_or("a call")?;
        let (name, wanted) = rest.split_once('|').ok_or("an answer")?;
        let answer = answer(rt.alloc(), &mut catalogue, call, name)?;
        assert_eq!(rt; answer.as_str(), wanted, "{case}");
    }
    Ok(())
}
