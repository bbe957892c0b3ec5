//! Scripts and their trees, worked out by hand.

pub const SCRIPTS: &str = "\
SELECT x FROM n | \
    Script { statements: Items { items: [Statement { distinct: false, items: List(Items { items: [\
    Col(ColRef { alias: None, column: Name { text: SqText { text: \"x\" }, at: 7 } }, None)] }), \
    sources: Items { items: [Source { table: Name { text: SqText { text: \"n\" }, at: 14 }, \
    alias: Name { text: SqText { text: \"n\" }, at: 14 }, on: None }] }, \
    condition: None, groups: Items { items: [] }, order: Items { items: [] }, limit: None }] } }\n\
SELECT * FROM n | \
    Script { statements: Items { items: [Statement { distinct: false, items: Star, sources: Items { \
    items: [Source { table: Name { text: SqText { text: \"n\" }, at: 14 }, alias: Name { \
    text: SqText { text: \"n\" }, at: 14 }, on: None }] }, condition: None, groups: Items { items: [] }, order: Items \
    { items: [] }, limit: None }] } }\n\
SELECT ALL t.*, t.x y, \"a\"\"b\" AS z FROM t | \
    Script { statements: Items { items: [Statement { distinct: false, items: List(Items { items: \
    [AllOf(Name { text: SqText { text: \"t\" }, at: 11 }), Col(ColRef { alias: Some(Name \
    { text: SqText { text: \"t\" }, at: 16 }), column: Name { text: SqText { text: \"x\" }, \
    at: 18 } }, Some(Name { text: SqText { text: \"y\" }, at: 20 })), Col(ColRef { alias: \
    None, column: Name { text: SqText { text: \"a\\\"b\" }, at: 23 } }, Some(Name { text: \
    SqText { text: \"z\" }, at: 33 }))] }), sources: Items { items: [Source { table: Name \
    { text: SqText { text: \"t\" }, at: 40 }, alias: Name { text: SqText { text: \"t\" }, \
    at: 40 }, on: None }] }, condition: None, \
    groups: Items { items: [] }, order: Items { items: [] }, limit: None }] } }\n\
SELECT x FROM n a, m AS b CROSS JOIN k INNER JOIN j ON x = 1 | \
    Script { statements: Items { items: [Statement { distinct: false, items: List(Items { items: \
    [Col(ColRef { alias: None, column: Name { text: SqText { text: \"x\" }, at: 7 } }, \
    None)] }), sources: Items { items: [Source { table: Name { text: SqText { text: \"n\" \
    }, at: 14 }, alias: Name { text: SqText { text: \"a\" }, at: 16 }, on: None }, Source \
    { table: Name { text: SqText { text: \"m\" }, at: 19 }, alias: Name { text: SqText { \
    text: \"b\" }, at: 24 }, on: None }, Source { table: Name { text: SqText { text: \"k\" \
    }, at: 37 }, alias: Name { text: SqText { text: \"k\" }, at: 37 }, on: None }, Source \
    { table: Name { text: SqText { text: \"j\" }, at: 50 }, alias: Name { text: SqText { \
    text: \"j\" }, at: 50 }, on: Some(Compare { at: 55, left: Sum { at: 55, terms: Items \
    { items: [RawTerm { at: 55, negative: false, number: None, column: Some(ColRef { \
    alias: None, column: Name { text: SqText { text: \"x\" }, at: 55 } }) }] } }, cmp: \
    Eq, right: Sum { at: 59, terms: Items { items: [RawTerm { at: 59, negative: false, \
    number: Some(1), column: None }] } } }) }] }, condition: None, groups: Items { items: [] }, order: Items { \
    items: [] }, limit: None }] } }\n\
SELECT nulls FROM n ORDER BY nulls NULLS FIRST, x ASC NULLS LAST, t.y DESC, nulls DESC NULLS LAST, z | \
    Script { statements: Items { items: [Statement { distinct: false, items: List(Items { items: \
    [Col(ColRef { alias: None, column: Name { text: SqText { text: \"nulls\" }, at: 7 } \
    }, None)] }), sources: Items { items: [Source { table: Name { text: SqText { text: \
    \"n\" }, at: 18 }, alias: Name { text: SqText { text: \"n\" }, at: 18 }, on: None }] }, \
    condition: None, groups: Items { items: [] }, order: Items { items: [OrderItem { column: ColRef { alias: None, \
    column: Name { text: SqText { text: \"nulls\" }, at: 29 } }, way: SortWay { \
    descending: false, nulls_first: true } }, OrderItem { column: ColRef { alias: None, \
    column: Name { text: SqText { text: \"x\" }, at: 48 } }, way: SortWay { descending: \
    false, nulls_first: false } }, OrderItem { column: ColRef { alias: Some(Name { \
    text: SqText { text: \"t\" }, at: 66 }), column: Name { text: SqText { text: \"y\" }, \
    at: 68 } }, way: SortWay { descending: true, nulls_first: true } }, OrderItem { \
    column: ColRef { alias: None, column: Name { text: SqText { text: \"nulls\" }, at: 76 \
    } }, way: SortWay { descending: true, nulls_first: false } }, OrderItem { column: \
    ColRef { alias: None, column: Name { text: SqText { text: \"z\" }, at: 99 } }, way: \
    SortWay { descending: false, nulls_first: false } }] }, limit: None }] } }\n\
SELECT x FROM n; SELECT y FROM m; | \
    Script { statements: Items { items: [Statement { distinct: false, items: List(Items { items: \
    [Col(ColRef { alias: None, column: Name { text: SqText { text: \"x\" }, at: 7 } }, \
    None)] }), sources: Items { items: [Source { table: Name { text: SqText { text: \"n\" \
    }, at: 14 }, alias: Name { text: SqText { text: \"n\" }, at: 14 }, on: None }] }, \
    condition: None, \
    groups: Items { items: [] }, order: Items { items: [] }, limit: None }, \
    Statement { distinct: false, items: List(Items { \
    items: [Col(ColRef { alias: None, column: Name { text: SqText { text: \"y\" }, at: 24 \
    } }, None)] }), sources: Items { items: [Source { table: Name { text: SqText { \
    text: \"m\" }, at: 31 }, alias: Name { text: SqText { text: \"m\" }, at: 31 }, on: None \
    }] }, condition: None, groups: Items { items: [] }, order: Items { items: [] }, limit: None }] } }\n\
SELECT DISTINCT COUNT(*), sum(n.x) AS s FROM n GROUP BY n.x, y LIMIT 5 | \
    Script { statements: Items { items: [Statement { distinct: true, items: List(Items { items: [\
    Agg { at: 16, kind: CountAll, column: None, name: None }, \
    Agg { at: 26, kind: Sum, column: Some(ColRef { alias: Some(Name { text: SqText { text: \"n\" }, at: 30 }), \
    column: Name { text: SqText { text: \"x\" }, at: 32 } }), \
    name: Some(Name { text: SqText { text: \"s\" }, at: 38 }) }] }), \
    sources: Items { items: [Source { table: Name { text: SqText { text: \"n\" }, at: 45 }, \
    alias: Name { text: SqText { text: \"n\" }, at: 45 }, on: None }] }, condition: None, \
    groups: Items { items: [ColRef { alias: Some(Name { text: SqText { text: \"n\" }, at: 56 }), \
    column: Name { text: SqText { text: \"x\" }, at: 58 } }, \
    ColRef { alias: None, column: Name { text: SqText { text: \"y\" }, at: 61 } }] }, \
    order: Items { items: [] }, limit: Some(5) }] } }\n\
";

/// Conditions behind `SELECT x FROM n WHERE `.
pub const CONDITIONS: &str = "\
x = +1 | \
    Compare { at: 22, left: Sum { at: 22, terms: Items { items: [RawTerm { at: 22, \
    negative: false, number: None, column: Some(ColRef { alias: None, column: Name { \
    text: SqText { text: \"x\" }, at: 22 } }) }] } }, cmp: Eq, right: Sum { at: 26, \
    terms: Items { items: [RawTerm { at: 27, negative: false, number: Some(1), column: \
    None }] } } }\n\
-x < 2 * y | \
    Compare { at: 22, left: Sum { at: 22, terms: Items { items: [RawTerm { at: 23, \
    negative: true, number: None, column: Some(ColRef { alias: None, column: Name { \
    text: SqText { text: \"x\" }, at: 23 } }) }] } }, cmp: Lt, right: Sum { at: 27, \
    terms: Items { items: [RawTerm { at: 27, negative: false, number: Some(2), column: \
    Some(ColRef { alias: None, column: Name { text: SqText { text: \"y\" }, at: 31 } }) \
    }] } } }\n\
y * 2 >= 1 - x | \
    Compare { at: 22, left: Sum { at: 22, terms: Items { items: [RawTerm { at: 22, \
    negative: false, number: Some(2), column: Some(ColRef { alias: None, column: Name { \
    text: SqText { text: \"y\" }, at: 22 } }) }] } }, cmp: Ge, right: Sum { at: 31, \
    terms: Items { items: [RawTerm { at: 31, negative: false, number: Some(1), column: \
    None }, RawTerm { at: 35, negative: true, number: None, column: Some(ColRef { \
    alias: None, column: Name { text: SqText { text: \"x\" }, at: 35 } }) }] } } }\n\
x != 'it''s' | \
    Compare { at: 22, left: Sum { at: 22, terms: Items { items: [RawTerm { at: 22, \
    negative: false, number: None, column: Some(ColRef { alias: None, column: Name { \
    text: SqText { text: \"x\" }, at: 22 } }) }] } }, cmp: Ne, right: Text { at: 27, \
    text: SqText { text: \"it's\" } } }\n\
NULL <= NULL | \
    Compare { at: 22, left: Null { at: 22 }, cmp: Le, right: Null { at: 30 } }\n\
x NOT BETWEEN 1 AND 2 | \
    Between { at: 22, negated: true, subject: Sum { at: 22, terms: Items { items: \
    [RawTerm { at: 22, negative: false, number: None, column: Some(ColRef { alias: \
    None, column: Name { text: SqText { text: \"x\" }, at: 22 } }) }] } }, low: Sum { at: \
    36, terms: Items { items: [RawTerm { at: 36, negative: false, number: Some(1), \
    column: None }] } }, high: Boxed { inner: Sum { at: 42, terms: Items { items: [RawTerm { at: 42, \
    negative: false, number: Some(2), column: None }] } } } }\n\
x IN (1, NULL) | \
    Within { at: 22, negated: false, subject: Sum { at: 22, terms: Items { items: \
    [RawTerm { at: 22, negative: false, number: None, column: Some(ColRef { alias: \
    None, column: Name { text: SqText { text: \"x\" }, at: 22 } }) }] } }, items: Items { \
    items: [Sum { at: 28, terms: Items { items: [RawTerm { at: 28, negative: false, \
    number: Some(1), column: None }] } }, Null { at: 31 }] } }\n\
x NOT IN (1) | \
    Within { at: 22, negated: true, subject: Sum { at: 22, terms: Items { items: \
    [RawTerm { at: 22, negative: false, number: None, column: Some(ColRef { alias: \
    None, column: Name { text: SqText { text: \"x\" }, at: 22 } }) }] } }, items: Items { \
    items: [Sum { at: 32, terms: Items { items: [RawTerm { at: 32, negative: false, \
    number: Some(1), column: None }] } }] } }\n\
x IS NULL | \
    IsNull { at: 22, negated: false, subject: Sum { at: 22, terms: Items { items: \
    [RawTerm { at: 22, negative: false, number: None, column: Some(ColRef { alias: \
    None, column: Name { text: SqText { text: \"x\" }, at: 22 } }) }] } } }\n\
f(x, -1, 'a', NULL, n.x) | \
    Call { function: Name { text: SqText { text: \"f\" }, at: 22 }, args: Items { items: \
    [Sum { at: 24, terms: Items { items: [RawTerm { at: 24, negative: false, number: \
    None, column: Some(ColRef { alias: None, column: Name { text: SqText { text: \"x\" }, \
    at: 24 } }) }] } }, Sum { at: 27, terms: Items { items: [RawTerm { at: 28, \
    negative: true, number: Some(1), column: None }] } }, Text { at: 31, text: SqText { \
    text: \"a\" } }, Null { at: 36 }, Sum { at: 42, terms: Items { items: [RawTerm { at: \
    42, negative: false, number: None, column: Some(ColRef { alias: Some(Name { text: \
    SqText { text: \"n\" }, at: 42 }), column: Name { text: SqText { text: \"x\" }, at: 44 \
    } }) }] } }] } }\n\
NOT x = 1 AND y = 2 OR z = 3 | \
    Any(Items { items: [All(Items { items: [Not(Boxed { inner: Compare { at: 26, left: \
    Sum { at: 26, terms: Items { items: [RawTerm { at: 26, negative: false, number: \
    None, column: Some(ColRef { alias: None, column: Name { text: SqText { text: \"x\" }, \
    at: 26 } }) }] } }, cmp: Eq, right: Sum { at: 30, terms: Items { items: [RawTerm { \
    at: 30, negative: false, number: Some(1), column: None }] } } } }), Compare { at: \
    36, left: Sum { at: 36, terms: Items { items: [RawTerm { at: 36, negative: false, \
    number: None, column: Some(ColRef { alias: None, column: Name { text: SqText { \
    text: \"y\" }, at: 36 } }) }] } }, cmp: Eq, right: Sum { at: 40, terms: Items { \
    items: [RawTerm { at: 40, negative: false, number: Some(2), column: None }] } } }] \
    }), Compare { at: 45, left: Sum { at: 45, terms: Items { items: [RawTerm { at: 45, \
    negative: false, number: None, column: Some(ColRef { alias: None, column: Name { \
    text: SqText { text: \"z\" }, at: 45 } }) }] } }, cmp: Eq, right: Sum { at: 49, \
    terms: Items { items: [RawTerm { at: 49, negative: false, number: Some(3), column: \
    None }] } } }] })\n\
x = 1 AND (y = 2 OR z = 3) | \
    All(Items { items: [Compare { at: 22, left: Sum { at: 22, terms: Items { items: \
    [RawTerm { at: 22, negative: false, number: None, column: Some(ColRef { alias: \
    None, column: Name { text: SqText { text: \"x\" }, at: 22 } }) }] } }, cmp: Eq, \
    right: Sum { at: 26, terms: Items { items: [RawTerm { at: 26, negative: false, \
    number: Some(1), column: None }] } } }, Any(Items { items: [Compare { at: 33, left: \
    Sum { at: 33, terms: Items { items: [RawTerm { at: 33, negative: false, number: \
    None, column: Some(ColRef { alias: None, column: Name { text: SqText { text: \"y\" }, \
    at: 33 } }) }] } }, cmp: Eq, right: Sum { at: 37, terms: Items { items: [RawTerm { \
    at: 37, negative: false, number: Some(2), column: None }] } } }, Compare { at: 42, \
    left: Sum { at: 42, terms: Items { items: [RawTerm { at: 42, negative: false, \
    number: None, column: Some(ColRef { alias: None, column: Name { text: SqText { \
    text: \"z\" }, at: 42 } }) }] } }, cmp: Eq, right: Sum { at: 46, terms: Items { \
    items: [RawTerm { at: 46, negative: false, number: Some(3), column: None }] } } }] \
    })] })\n\
NOT (x = 1) IS NOT TRUE | \
    Not(Boxed { inner: Is { tree: Boxed { inner: Compare { at: 27, left: Sum { at: 27, \
    terms: Items { items: [RawTerm { at: 27, negative: false, number: None, column: \
    Some(ColRef { alias: None, column: Name { text: SqText { text: \"x\" }, at: 27 } }) \
    }] } }, cmp: Eq, right: Sum { at: 31, terms: Items { items: [RawTerm { at: 31, \
    negative: false, number: Some(1), column: None }] } } } }, negated: true, truth: \
    True } })\n\
x IS NULL IS UNKNOWN | \
    Is { tree: Boxed { inner: IsNull { at: 22, negated: false, subject: Sum { at: 22, \
    terms: Items { items: [RawTerm { at: 22, negative: false, number: None, column: \
    Some(ColRef { alias: None, column: Name { text: SqText { text: \"x\" }, at: 22 } }) \
    }] } } } }, negated: false, truth: Unknown }\n\
NOT NOT x > 1 | \
    Not(Boxed { inner: Not(Boxed { inner: Compare { at: 30, left: Sum { at: 30, terms: \
    Items { items: [RawTerm { at: 30, negative: false, number: None, column: \
    Some(ColRef { alias: None, column: Name { text: SqText { text: \"x\" }, at: 30 } }) \
    }] } }, cmp: Gt, right: Sum { at: 34, terms: Items { items: [RawTerm { at: 34, \
    negative: false, number: Some(1), column: None }] } } } }) })\n\
\"a\"\"b\" = 1 | \
    Compare { at: 22, left: Sum { at: 22, terms: Items { items: [RawTerm { at: 22, \
    negative: false, number: None, column: Some(ColRef { alias: None, column: Name { \
    text: SqText { text: \"a\\\"b\" }, at: 22 } }) }] } }, cmp: Eq, right: Sum { at: 31, \
    terms: Items { items: [RawTerm { at: 31, negative: false, number: Some(1), column: \
    None }] } } }\n\
x = 1 AND y = 2 AND z = 3 | \
    All(Items { items: [Compare { at: 22, left: Sum { at: 22, terms: Items { items: \
    [RawTerm { at: 22, negative: false, number: None, column: Some(ColRef { alias: \
    None, column: Name { text: SqText { text: \"x\" }, at: 22 } }) }] } }, cmp: Eq, \
    right: Sum { at: 26, terms: Items { items: [RawTerm { at: 26, negative: false, \
    number: Some(1), column: None }] } } }, Compare { at: 32, left: Sum { at: 32, \
    terms: Items { items: [RawTerm { at: 32, negative: false, number: None, column: \
    Some(ColRef { alias: None, column: Name { text: SqText { text: \"y\" }, at: 32 } }) \
    }] } }, cmp: Eq, right: Sum { at: 36, terms: Items { items: [RawTerm { at: 36, \
    negative: false, number: Some(2), column: None }] } } }, Compare { at: 42, left: \
    Sum { at: 42, terms: Items { items: [RawTerm { at: 42, negative: false, number: \
    None, column: Some(ColRef { alias: None, column: Name { text: SqText { text: \"z\" }, \
    at: 42 } }) }] } }, cmp: Eq, right: Sum { at: 46, terms: Items { items: [RawTerm { \
    at: 46, negative: false, number: Some(3), column: None }] } } }] })\n\
x > 1 OR y > 2 OR z > 3 | \
    Any(Items { items: [Compare { at: 22, left: Sum { at: 22, terms: Items { items: \
    [RawTerm { at: 22, negative: false, number: None, column: Some(ColRef { alias: \
    None, column: Name { text: SqText { text: \"x\" }, at: 22 } }) }] } }, cmp: Gt, \
    right: Sum { at: 26, terms: Items { items: [RawTerm { at: 26, negative: false, \
    number: Some(1), column: None }] } } }, Compare { at: 31, left: Sum { at: 31, \
    terms: Items { items: [RawTerm { at: 31, negative: false, number: None, column: \
    Some(ColRef { alias: None, column: Name { text: SqText { text: \"y\" }, at: 31 } }) \
    }] } }, cmp: Gt, right: Sum { at: 35, terms: Items { items: [RawTerm { at: 35, \
    negative: false, number: Some(2), column: None }] } } }, Compare { at: 40, left: \
    Sum { at: 40, terms: Items { items: [RawTerm { at: 40, negative: false, number: \
    None, column: Some(ColRef { alias: None, column: Name { text: SqText { text: \"z\" }, \
    at: 40 } }) }] } }, cmp: Gt, right: Sum { at: 44, terms: Items { items: [RawTerm { \
    at: 44, negative: false, number: Some(3), column: None }] } } }] })\n\
";

pub const BIG_TREE: &str = "\
Script { statements: Items { items: [Statement { distinct: false, items: List(Items { items: [\
Col(ColRef { alias: Some(Name { text: SqText { text: \"p\" }, at: 23 }), \
column: Name { text: SqText { text: \"name\" }, at: 25 } }, \
Some(Name { text: SqText { text: \"who\" }, at: 33 })), \
Col(ColRef { alias: Some(Name { text: SqText { text: \"o\" }, at: 38 }), \
column: Name { text: SqText { text: \"total\" }, at: 40 } }, None)] }), \
sources: Items { items: [\
Source { table: Name { text: SqText { text: \"people\" }, at: 51 }, \
alias: Name { text: SqText { text: \"p\" }, at: 58 }, on: None }, \
Source { table: Name { text: SqText { text: \"orders\" }, at: 65 }, \
alias: Name { text: SqText { text: \"o\" }, at: 72 }, \
on: Some(Compare { at: 77, left: Sum { at: 77, terms: Items { items: [\
RawTerm { at: 77, negative: false, number: None, column: Some(ColRef { alias: \
Some(Name { text: SqText { text: \"o\" }, at: 77 }), \
column: Name { text: SqText { text: \"person\" }, at: 79 } }) }] } }, \
cmp: Eq, right: Sum { at: 88, terms: Items { items: [\
RawTerm { at: 88, negative: false, number: None, column: Some(ColRef { alias: \
Some(Name { text: SqText { text: \"p\" }, at: 88 }), \
column: Name { text: SqText { text: \"id\" }, at: 90 } }) }] } } }) }] }, \
condition: Some(All(Items { items: [\
Between { at: 99, negated: false, subject: Sum { at: 99, terms: Items { items: [\
RawTerm { at: 99, negative: false, number: None, column: Some(ColRef { alias: \
Some(Name { text: SqText { text: \"o\" }, at: 99 }), \
column: Name { text: SqText { text: \"total\" }, at: 101 } }) }] } }, \
low: Sum { at: 115, terms: Items { items: [\
RawTerm { at: 115, negative: false, number: Some(50), column: None }] } }, \
high: Boxed { inner: Sum { at: 122, terms: Items { items: [\
RawTerm { at: 122, negative: false, number: Some(200), column: None }] } } } }, \
IsNull { at: 130, negated: true, subject: Sum { at: 130, terms: Items { items: [\
RawTerm { at: 130, negative: false, number: None, column: Some(ColRef { alias: \
Some(Name { text: SqText { text: \"p\" }, at: 130 }), \
column: Name { text: SqText { text: \"city\" }, at: 132 } }) }] } } }] })), \
groups: Items { items: [] }, order: Items { items: [\
OrderItem { column: ColRef { alias: \
Some(Name { text: SqText { text: \"o\" }, at: 158 }), \
column: Name { text: SqText { text: \"total\" }, at: 160 } }, \
way: SortWay { descending: true, nulls_first: true } }, \
OrderItem { column: ColRef { alias: None, \
column: Name { text: SqText { text: \"who\" }, at: 172 } }, \
way: SortWay { descending: false, nulls_first: false } }] }, limit: None }] } }";

/// What stands around the tree of such a condition.
pub const AROUND: (&str, &str) = (
    "Script { statements: Items { items: [Statement { distinct: false, items: List(Items { items: [\
    Col(ColRef { alias: None, column: Name { text: SqText { text: \"x\" }, at: 7 } }, None)] }), \
    sources: Items { items: [Source { table: Name { text: SqText { text: \"n\" }, at: 14 }, \
    alias: Name { text: SqText { text: \"n\" }, at: 14 }, on: None }] }, condition: Some(",
    "), groups: Items { items: [] }, order: Items { items: [] }, limit: None }] } }",
);
