//! CSV files and the tables that table_csv reads of them.
use sq_value::{ColType, Column, Table, Value};
use std::alloc::{AllocError, Global};
use std::test::Fail;
use table_csv::read_table;

/// A column written out: its name, and a letter for its type.
fn push_column(alloc: Global, text: &mut String, column: &Column) -> Result<(), AllocError> {
    text.push_str(column.name.as_str())?;
    match column.kind {
        ColType::Integer => text.push_str(" i "),
        ColType::Text => text.push_str(" t "),
        ColType::Decimal(scale) => text.push_str(format!(in alloc; " d{scale} ")?.as_str()),
    }
}

/// A value written out: `~` for null, and a decimal number as its units and its scale.
fn push_value(alloc: Global, text: &mut String, value: &Value) -> Result<(), AllocError> {
    match value {
        Value::Null => text.push_str("~ "),
        Value::Int(number) => text.push_str(format!(in alloc; "{number} ")?.as_str()),
        Value::Text(written) => {
            let written = written.as_str();
            text.push_str(format!(in alloc; "'{written}' ")?.as_str())
        }
        Value::Decimal(number) => {
            let units = number.units;
            let scale = number.scale;
            text.push_str(format!(in alloc; "{units}e{scale} ")?.as_str())
        }
    }
}

/// A table written out: its columns, and each row behind a slash.
fn shown(alloc: Global, table: &Table) -> Result<String, AllocError> {
    let mut text = String::new(alloc);
    for column in table.columns() {
        push_column(alloc, &mut text, column)?;
    }
    for row in 0..table.rows() {
        text.push_str("/ ")?;
        for column in 0..table.columns().len() as u32 {
            push_value(alloc, &mut text, table.value(row, column))?;
        }
    }
    Ok(text)
}

/// The table of a file, or its fault, written out.
fn answer(alloc: Global, bytes: &[u8]) -> Result<String, AllocError> {
    match read_table(alloc, bytes) {
        Ok(table) => shown(alloc, &table),
        Err(fault) => format!(in alloc; "{fault:?}"),
    }
}

#[test]
fn files_as_people_write_them(rt: HostRuntime) -> Result<(), Fail> {
    let cases: [(&[u8], &str); 64] = [
        (b"x\n1\n", "x i / 1 "),
        (b"x\n01\n", "x t / '01' "),
        (b":int\n+7\n", "column1 i / 7 "),
        (b"x:int\n+7\n\n-0\n", "x i / 7 / 0 "),
        (
            b"sku,cost:dec2\n1,1.5\n2,10\n3,-0.25\n4,\n",
            "sku i cost d2 / 1 150e2 / 2 1000e2 / 3 -25e2 / 4 ~ ",
        ),
        (b"r:dec3\n1.500\n10.000\n", "r d3 / 1500e3 / 10000e3 "),
        (b"z:dec0\n7\n-7\n", "z d0 / 7e0 / -7e0 "),
        (b"\xEF\xBB\xBFx\n1\n", "x i / 1 "),
        (b"\xEF\xBB\xBF\xEF\xBB\xBFx\n1\n", "x i / 1 "),
        (b"x\n\xEF\xBB\xBF1\n", "x t / '\u{FEFF}1' "),
        (b"x\r1\r2", "x i / 1 / 2 "),
        (b"x\r\n1\r\n2\r\n", "x i / 1 / 2 "),
        (b"x\r\n1\n2\r3", "x i / 1 / 2 / 3 "),
        (b"\n\nx\n\n1\n\n", "x i / 1 "),
        (b"x\n\"\"\n1\n", "x i / ~ / 1 "),
        (b"x\n\"a\"\"b\"\n", "x t / 'a\"b' "),
        (b"x\na\"b\n", "x t / 'a\"b' "),
        (b"x\n\"a\nb\"\n", "x t / 'a\nb' "),
        (b"x\n\"1\"\n", "x i / 1 "),
        (b"x,y:int\n", "x t y i "),
        (b"x:INT\n1\n", "x:INT i / 1 "),
        (b"a:int:text\n1\n", "a:int t / '1' "),
        (b"x:dec7\n1\n", "x:dec7 i / 1 "),
        (b"x:\n1\n", "x: i / 1 "),
        (b",b\n1,2\n", "column1 i b i / 1 2 "),
        (b"a,:dec1\n1,2\n", "a i column2 d1 / 1 20e1 "),
        (b"x\n-0\n", "x t / '-0' "),
        (b"x\n9223372036854775807\n", "x i / 9223372036854775807 "),
        (
            b"x\n-9223372036854775809\n",
            "x t / '-9223372036854775809' ",
        ),
        (b"x\n1.0\n", "x t / '1.0' "),
        (b"x:text\n01\n\"\"\n", "x t / '01' / ~ "),
        (b"x:dec6\n-0.000001\n", "x d6 / -1e6 "),
        (b"x\n+1\n", "x t / '+1' "),
        (b"x\n 1\n", "x t / ' 1' "),
        (b"x\n9223372036854775808\n", "x t / '9223372036854775808' "),
        (
            b"x\n-9223372036854775808\n0\n",
            "x i / -9223372036854775808 / 0 ",
        ),
        (b"x\n1\na\n", "x t / '1' / 'a' "),
        (b"a,b\n1,\n,x\n", "a i b t / 1 ~ / ~ 'x' "),
        (b"a,b\n,\n", "a t b t / ~ ~ "),
        (b"caf\xC3\xA9:text\n\xC3\xA9\n", "caf\u{E9} t / '\u{E9}' "),
        (b"", "NoHeading"),
        (b"\n\r\n", "NoHeading"),
        (b"\xEF\xBB\xBF", "NoHeading"),
        (b"x,X\n", "RepeatedColumn { field: 2 }"),
        (b",column1\n", "RepeatedColumn { field: 2 }"),
        (b"x,:text,X:int\n1,a,2\n", "RepeatedColumn { field: 3 }"),
        (b"x,X,\xFF\n", "RepeatedColumn { field: 2 }"),
        (b"\xFF,x\n", "NotUtf8 { rec: 0, field: 1 }"),
        (b"x,\xFF:int\n", "NotUtf8 { rec: 0, field: 2 }"),
        (b"a:text\n\xFF\n", "NotUtf8 { rec: 1, field: 1 }"),
        (b"a:int\n\xFF\n", "NotUtf8 { rec: 1, field: 1 }"),
        (b"x\n1\n\xFF\n", "NotUtf8 { rec: 2, field: 1 }"),
        (b"x:int\n 7\n", "BadInteger { rec: 1, field: 1 }"),
        (
            b"x:int\n9223372036854775808\n",
            "BadInteger { rec: 1, field: 1 }",
        ),
        (b"x:dec2\n1.234\n", "BadDecimal { rec: 1, field: 1 }"),
        (b"x:dec0\n1.\n", "BadDecimal { rec: 1, field: 1 }"),
        (
            b"x,y:dec1\n1,2\n3,\n4,.5\n",
            "BadDecimal { rec: 3, field: 2 }",
        ),
        (b"a,b:int\n1,x\n\xFF,2\n", "BadInteger { rec: 1, field: 2 }"),
        (
            b"x:dec6\n9223372036854775807\n",
            "BadDecimal { rec: 1, field: 1 }",
        ),
        (b"x\n1\n2,3\na\n", "Unequal { rec: 2 }"),
        (b"a,b\n1\n", "Unequal { rec: 1 }"),
        (b"a:int,b\nx,\xFF\n", "BadInteger { rec: 1, field: 1 }"),
        (b"a:int\nx\n1,2\n", "BadInteger { rec: 1, field: 1 }"),
        (b"a:int\n1,2\nx\n", "Unequal { rec: 1 }"),
    ];
    for (bytes, want) in cases {
        let text = answer(rt.alloc(), bytes)?;
        assert_eq!(rt; text.as_str(), want);
    }
    Ok(())
}

/// A heading of so many columns.
fn wide(alloc: Global, columns: u32) -> Result<Vec<u8>, AllocError> {
    let mut bytes = Vec::new(alloc);
    for column in 1..columns {
        bytes.extend_from_slice(format!(in alloc; "a{column},")?.as_bytes())?;
    }
    bytes.extend_from_slice(b"a\n")?;
    Ok(bytes)
}

#[test]
fn columns_up_to_64(rt: HostRuntime) -> Result<(), Fail> {
    let taken = wide(rt.alloc(), 64)?;
    assert!(rt; read_table(rt.alloc(), taken.as_slice()).is_ok());
    let refused = answer(rt.alloc(), wide(rt.alloc(), 65)?.as_slice())?;
    assert_eq!(rt; refused.as_str(), "TooManyColumns");
    Ok(())
}

/// A text, another 70 times, and a last one.
fn repeated(alloc: Global, first: &str, again: &str, last: &str) -> Result<String, AllocError> {
    let mut text = String::from_str(alloc, first)?;
    for _ in 0..70 {
        text.push_str(again)?;
    }
    text.push_str(last)?;
    Ok(text)
}

#[test]
fn types_that_70_records_hide(rt: HostRuntime) -> Result<(), Fail> {
    let cases: [([&str; 3], [&str; 3]); 8] = [
        (["x\n", "1\n", "a\n"], ["x t ", "/ '1' ", "/ 'a' "]),
        (["x\n", "1\n", "01\n"], ["x t ", "/ '1' ", "/ '01' "]),
        (["x\n", "-1\n", "20\n"], ["x i ", "/ -1 ", "/ 20 "]),
        (["x,y\n", ",1\n", "5,2\n"], ["x i y i ", "/ ~ 1 ", "/ 5 2 "]),
        (
            ["x,y\n", "7,b\n", "8,9\n"],
            ["x i y t ", "/ 7 'b' ", "/ 8 '9' "],
        ),
        (
            ["x,y\n", "7,\n", "a,\n"],
            ["x t y t ", "/ '7' ~ ", "/ 'a' ~ "],
        ),
        (
            ["x:int\n", "1\n", "a\n"],
            ["BadInteger { rec: 71, field: 1 }", "", ""],
        ),
        (["x\n", "1\n", "1,2\n"], ["Unequal { rec: 71 }", "", ""]),
    ];
    for (file, want) in cases {
        let bytes = repeated(rt.alloc(), file[0], file[1], file[2])?;
        let text = answer(rt.alloc(), bytes.as_bytes())?;
        let wanted = repeated(rt.alloc(), want[0], want[1], want[2])?;
        assert_eq!(rt; text.as_str(), wanted.as_str());
    }
    Ok(())
}
