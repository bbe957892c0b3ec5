//! Statements with set functions, GROUP BY, DISTINCT and LIMIT, worked out by hand: their faults, and their shapes. A
//! case is what is wanted, a bar, and a text. What is wanted of a statement without a fault is `shape` and the number
//! of its conjuncts.

use crate::bindings::statements::Group;

/// Faults at their places, and which of two comes first.
pub const FAULTS: &str = "\
TypeMismatch 11 | SELECT SUM(name) FROM cust\n\
TypeMismatch 22 | SELECT MIN(name), SUM(cust.name) FROM cust\n\
shape 0 | SELECT MIN(name), MAX(name), COUNT(name), SUM(id) FROM cust\n\
shape 0 | SELECT SUM(cost), SUM(sku) FROM p\n\
NotGrouped 7 | SELECT oid FROM ord GROUP BY cid\n\
NotGrouped 12 | SELECT cid, oid FROM ord GROUP BY cid\n\
NotGrouped 17 | SELECT COUNT(*), oid FROM ord\n\
NotGrouped 14 | SELECT * FROM ord GROUP BY cid\n\
NotGrouped 14 | SELECT * FROM ord o, n GROUP BY oid, cid, amt\n\
NotGrouped 12 | SELECT cid, o.*, COUNT(*) FROM ord o GROUP BY cid\n\
shape 0 | SELECT * FROM n GROUP BY x\n\
shape 0 | SELECT n.*, COUNT(*) FROM n, ord GROUP BY n.x\n\
NotGrouped 42 | SELECT cid FROM ord GROUP BY cid ORDER BY amt\n\
NotGrouped 34 | SELECT COUNT(*) FROM ord ORDER BY oid\n\
NotGrouped 41 | SELECT COUNT(*) AS oid FROM ord ORDER BY ord.oid\n\
shape 0 | SELECT COUNT(*) AS oid FROM ord ORDER BY oid\n\
shape 0 | SELECT COUNT(*) FROM ord GROUP BY cid ORDER BY cid\n\
NotSelected 38 | SELECT DISTINCT oid FROM ord ORDER BY cid\n\
NotSelected 45 | SELECT DISTINCT amt AS oid FROM ord ORDER BY ord.oid\n\
NotSelected 58 | SELECT DISTINCT COUNT(amt) FROM ord GROUP BY amt ORDER BY amt\n\
shape 0 | SELECT DISTINCT amt AS a FROM ord ORDER BY amt, ord.amt, A\n\
shape 0 | SELECT DISTINCT * FROM ord ORDER BY amt LIMIT 1\n\
shape 0 | SELECT oid FROM ord ORDER BY cid LIMIT 1\n\
NotGrouped 16 | SELECT DISTINCT oid FROM ord GROUP BY cid ORDER BY amt\n\
NotSelected 56 | SELECT DISTINCT cid FROM ord GROUP BY cid, amt ORDER BY amt\n\
NotSelected 51 | SELECT DISTINCT cid FROM ord GROUP BY cid ORDER BY amt\n\
TypeMismatch 20 | SELECT DISTINCT SUM(name) FROM cust ORDER BY id\n\
NotGrouped 7 | SELECT name, SUM(name) FROM cust\n\
TypeMismatch 11 | SELECT SUM(name), name FROM cust\n\
UnknownColumn 7 | SELECT z FROM ord GROUP BY cid\n\
NotGrouped 7 | SELECT cid FROM ord GROUP BY z\n\
UnknownColumn 34 | SELECT cid FROM ord GROUP BY cid, z\n\
UnknownColumn 34 | SELECT COUNT(*) FROM ord GROUP BY z\n\
UnknownColumn 13 | SELECT COUNT(z) FROM ord\n\
UnknownColumn 11 | SELECT SUM(z) FROM ord\n\
UnknownAlias 11 | SELECT MAX(b.amt) FROM ord\n\
UnknownAlias 7 | SELECT b.* FROM ord GROUP BY cid\n\
AmbiguousColumn 13 | SELECT COUNT(x) FROM n a, n b\n\
AmbiguousColumn 39 | SELECT COUNT(*) FROM n a, n b GROUP BY x\n\
AmbiguousColumn 42 | SELECT COUNT(*), COUNT(x) FROM n ORDER BY count\n\
AmbiguousColumn 49 | SELECT MIN(x) AS x, x FROM n GROUP BY x ORDER BY x\n\
shape 0 | SELECT COUNT(x), COUNT(n.x) FROM n ORDER BY count\n\
UnknownColumn 34 | SELECT COUNT(*) FROM ord ORDER BY sum\n\
UnknownTable 16 | SELECT oid FROM m GROUP BY cid\n\
NotGrouped 7 | SELECT oid FROM ord WHERE amt = 'a' GROUP BY cid\n\
TypeMismatch 26 | SELECT cid FROM ord WHERE amt = 'a' GROUP BY cid ORDER BY amt";

/// A table that is only looked up.
pub const REACH: &str = "\
Unreachable 0 | SELECT COUNT(*) FROM ord\n\
NotGrouped 7 | SELECT oid FROM ord GROUP BY cid\n\
Unreachable 0 | SELECT COUNT(*) FROM ord WHERE cid = 1 LIMIT 1\n\
shape 1 | SELECT COUNT(*) FROM n, ord WHERE cid = 1";

/// Shapes whole: behind the block's four parts stand `grouped` or `each`, the columns of GROUP BY, the cells, the
/// keys of ORDER BY, and DISTINCT and LIMIT.
pub const SHAPES: &str = "\
1; 0.0 oid; -; -; grouped; 0.1; 0.1 cid, all 0.0 k, sum 0.2 sum; cell 1 down first; - | SELECT cid, COUNT(*) AS k, \
    SUM(amt) FROM ord GROUP BY cid ORDER BY k DESC\n\
1; 0.0 oid; -; 0.2 Gt [100] @1; grouped; -; count 0.1 count, min 0.2 min, max 0.2 max; -; - | SELECT COUNT(cid), \
    MIN(amt), MAX(amt) FROM ord WHERE amt > 100\n\
1; 0.0 oid; -; -; each; -; 0.2 amt; cell 0 up last; distinct limit 2 | SELECT DISTINCT amt FROM ord ORDER BY amt \
    LIMIT 2\n\
2; 0.0 x; -; -; each; -; 0.0 x; -; limit 0 | SELECT x FROM n LIMIT 0\n\
2 2; 0.0 x; -; -; grouped; 1.0, 0.0; 1.0 x, all 0.0 count; 0.0 up last, cell 0 up last; - | SELECT b.x, COUNT(*) FROM \
    n a, n b GROUP BY b.x, a.x ORDER BY a.x, X\n\
1; 0.0 oid; -; -; each; -; 0.0 oid, 0.2 amt; 0.1 down last; limit 9223372036854775807 | SELECT oid, amt FROM ord ORDER \
    BY cid DESC NULLS LAST LIMIT 9223372036854775807\n\
1; 0.0 oid; -; -; grouped; 0.2, 0.2; 0.2 AMT, sum 0.2 b; cell 1 up last, 0.2 up last; distinct | SELECT DISTINCT amt \
    AS AMT, SUM(ord.amt) b FROM ord GROUP BY amt, ord.AMT ORDER BY B, ord.amt\n\
0; 0.0 id; -; -; each; -; 0.0 id, 0.1 name; -; distinct | SELECT DISTINCT * FROM cust";

/// All of these, each with how the tables are reached and what stands before the text of each case.
const GROUPS: [Group; 2] = [
    Group {
        accesses: "s s s s s s s s s s s s",
        front: "",
        cases: FAULTS,
    },
    Group {
        accesses: "s 1 s s s s s s s s s s",
        front: "",
        cases: REACH,
    },
];

/// Those with a fault or the number of conjuncts. The caller's proof doesn't read their texts.
pub fn groups() -> [Group; 2] {
    GROUPS
}

/// Those with the whole shape.
pub fn whole() -> [Group; 1] {
    [Group {
        accesses: "s s s s s s s s s s s s",
        front: "",
        cases: SHAPES,
    }]
}
