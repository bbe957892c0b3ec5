//! Statements and their blocks, worked out by hand. A case is what is wanted, a bar, and a text behind the front of
//! its group. What is wanted is written as `shown` does: the tables, each with its access where that is no scan alone;
//! the output columns; the sort keys; the conjuncts, each with its aliases as a number of bits.

use crate::bindings::statements::Group;

/// What is selected, from what, and how it is sorted.
pub const NAMES: &str = "\
0 1; 0.1 name, 1.2 amt; -; 0.0 Eq 1.1 @3 | SELECT name, amt FROM cust c, ord o WHERE c.id = o.cid\n\
0 1; 0.1 name, 1.2 amt; 1.2 down first; 0.0 Eq 1.1 @3 | SELECT name, amt FROM cust c, ord o WHERE c.id = o.cid ORDER \
    BY amt DESC\n\
2 2; 0.0 x; -; - | SELECT a.x FROM n a, n b\n\
2 2; 0.0 p, 1.0 q; -; 0.0 Lt 1.0 @3 | SELECT a.x AS p, b.x AS q FROM n a, n b WHERE a.x < b.x\n\
0 2; 0.0 id, 0.1 name, 1.0 x; -; - | SELECT * FROM cust, n\n\
1 1; 0.0 oid; -; 0.1 Eq 1.1 @3, 0.0 Le 1.0 @3 | SELECT o.oid FROM ord o, ord p WHERE o.cid = p.cid AND o.oid <= p.oid\n\
2 2; 0.0 x, 1.0 x; -; f0(0.0, 1.0) @3 | SELECT a.x, b.x FROM n a, n b WHERE divides(a.x, b.x)\n\
2 2 2 2 2 2 2 2 2 2 2 2; 0.0 x, 11.0 x; -; 0.0 Eq 11.0 @2049, 10.0 Ne 11.0 @3072 | SELECT a.x, l.x FROM n a, n b, n \
    c, n d, n e, n f, n g, n h, n i, n j, n k, n l WHERE a.x = l.x AND k.x <> l.x\n\
2 0; 1.0 id, 1.1 name, 0.0 k, 1.1 name; -; - | SELECT b.*, a.x k, name FROM n a, cust b\n\
2; 0.0 x; -; - | select X from N\n\
7; 0.0 Id, 0.1 a b, 0.2 select; -; 0.2 Eq [1] @1 | SELECT ID, \"A B\", \"Select\" FROM T WHERE \"SELECT\" = 1\n\
7; 0.0 Id, 0.1 a b, 0.2 select, 0.3 whole; -; - | SELECT * FROM \"T\"\n\
2; 0.0 Xx; -; 0.0 Eq [1] @1 | SELECT A.x AS Xx FROM n a WHERE \"a\".X = 1\n\
2; 0.0 a\"b; -; - | SELECT x AS \"a\"\"b\" FROM n\n\
2; 0.0 nulls; 0.0 up first; - | SELECT first.x AS nulls FROM n first ORDER BY nulls NULLS FIRST\n\
0; 0.0 name, 0.1 id; -; 0.1 Eq 'a' @1 | SELECT id AS name, name AS id FROM cust WHERE name = 'a'\n\
1; 0.0 oid; 0.1 up last; - | SELECT oid FROM ord ORDER BY cid\n\
1; 0.0 oid; 0.1 up first, 0.2 up last; - | SELECT oid FROM ord ORDER BY cid ASC NULLS FIRST, amt ASC\n\
1; 0.0 oid; 0.1 down last, 0.2 down first; - | SELECT oid FROM ord ORDER BY cid DESC NULLS LAST, amt DESC NULLS FIRST\n\
2 2; 0.0 x; 0.0 up last; - | SELECT a.x FROM n a, n b ORDER BY x\n\
2 2; 1.0 x; 1.0 up last, 0.0 up last; - | SELECT b.x FROM n a, n b ORDER BY x, a.x\n\
1; 0.2 oid; 0.2 up last; - | SELECT amt AS oid FROM ord ORDER BY oid\n\
1; 0.2 oid; 0.0 up last; - | SELECT amt AS oid FROM ord ORDER BY ord.oid\n\
1; 0.2 oid, 0.0 amt; 0.0 up last, 0.2 up last; - | SELECT amt AS oid, oid AS amt FROM ord ORDER BY amt, oid\n\
2; 0.0 y; 0.0 up last, 0.0 down first; - | SELECT x AS y FROM n ORDER BY x, Y DESC\n\
2; 0.0 k k; 0.0 up last; - | SELECT x AS \"k k\" FROM n ORDER BY \"K K\"\n\
2 2; 0.0 k, 1.0 m, 0.0 k; 0.0 down first, 1.0 up last; - | SELECT a.x AS k, b.x AS m, a.x AS k FROM n a, n b ORDER \
    BY k DESC, m\n\
0; 0.1 name; 0.0 up last; - | SELECT name FROM cust ORDER BY id\n\
2 2 2; 0.0 x; -; 0.0 Eq 1.0 @3, 1.0 Gt 2.0 @6, 2.0 Eq [1] @4, 0.0 Eq [2] @1 | SELECT a.x FROM n a JOIN n b ON a.x = \
    b.x INNER JOIN n c ON b.x > c.x AND c.x = 1 WHERE a.x = 2\n\
2 1 2; 0.0 x; -; 0.0 Eq [1] @1, 0.0 Eq 2.0 @5 | SELECT a.x FROM n a JOIN ord b ON x = 1 JOIN n c ON a.x = c.x";

/// Conditions as conjuncts.
pub const CONDITIONS: &str = "\
2 0 5; 0.0 x; -; 0.0 Ge [1] @1, 0.0 Le [2] @1 | x BETWEEN 1 AND 2\n\
2 0 5; 0.0 x; -; not(all(0.0 Ge [1]; 0.0 Le [2])) @1 | x NOT BETWEEN 1 AND 2\n\
2 0 5; 0.0 x; -; not(all(0.0 Ge [1]; 0.0 Le [2])) @1 | NOT x BETWEEN 1 AND 2\n\
2 0 5; 0.0 x; -; 0.0 Ge 1.0 @3, 0.0 Le 2.0 @5 | x BETWEEN id AND sku\n\
2 0 5; 0.0 x; -; not(all(0.0 Ge 1.0; 0.0 Le 2.0)) @7 | x NOT BETWEEN id AND sku\n\
2 0 5; 0.0 x; -; 0.0 Ge [1] @1, 0.0 Le [2] @1, 0.0 Eq [3] @1 | (x BETWEEN 1 AND 2) AND x = 3\n\
2 0 5; 0.0 x; -; any(all(0.0 Ge [1]; 0.0 Le [2]); 0.0 Eq [3]) @1 | x BETWEEN 1 AND 2 OR x = 3\n\
2 0 5; 0.0 x; -; is False(all(0.0 Ge [1]; 0.0 Le [2])) @1 | (x BETWEEN 1 AND 2) IS FALSE\n\
2 0 5; 0.0 x; -; 0.0 Eq [1] @1 | x IN (1)\n\
2 0 5; 0.0 x; -; any(0.0 Eq [1]; 0.0 Eq [2]; 0.0 Eq 1.0) @3 | x IN (1, 2, id)\n\
2 0 5; 0.0 x; -; not(0.0 Eq [1]) @1 | x NOT IN (1)\n\
2 0 5; 0.0 x; -; not(any(0.0 Eq [5]; 0.0 Eq NULL)) @1 | x NOT IN (5, NULL)\n\
2 0 5; 0.0 x; -; any([2*0.0] Eq [1]; [2*0.0] Eq [3]) @1 | 2 * x IN (1, 3)\n\
2 0 5; 0.0 x; -; 0.0 null @1 | x IS NULL\n\
2 0 5; 0.0 x; -; not(0.0 null) @1 | x IS NOT NULL\n\
2 0 5; 0.0 x; -; [1 1*0.0] null @1 | 1 + x IS NULL\n\
2 0 5; 0.0 x; -; not(0.0 Eq [1]) @1 | NOT x = 1\n\
2 0 5; 0.0 x; -; not(not(0.0 Eq [1])) @1 | NOT NOT x = 1\n\
2 0 5; 0.0 x; -; is Unknown(0.0 Eq [1]) @1 | (x = 1) IS UNKNOWN\n\
2 0 5; 0.0 x; -; not(is True(0.0 Eq [1])) @1 | (x = 1) IS NOT TRUE\n\
2 0 5; 0.0 x; -; not(is Unknown(not(0.0 Eq [1]))) @1 | (NOT x = 1) IS NOT UNKNOWN\n\
2 0 5; 0.0 x; -; 0.0 Eq [1] @1 | ((x = 1))\n\
2 0 5; 0.0 x; -; 0.0 Eq [1] @1, 0.0 Eq [2] @1, 0.0 Eq [3] @1, 0.0 Eq [4] @1 | (x = 1 AND (x = 2 AND x = 3)) AND x = 4\n\
2 0 5; 0.0 x; -; any(0.0 Eq [1]; all(0.0 Eq [2]; 0.0 Eq [3])) @1 | x = 1 OR x = 2 AND x = 3\n\
2 0 5; 0.0 x; -; any(0.0 Eq [1]; 0.0 Eq [2]) @1, 0.0 Eq [3] @1 | (x = 1 OR x = 2) AND x = 3\n\
2 0 5; 0.0 x; -; not(all(0.0 Eq [1]; 0.0 Eq [2])) @1 | NOT (x = 1 AND x = 2)\n\
2 0 5; 0.0 x; -; is True(all(0.0 Eq [1]; 0.0 Eq [2])) @1 | (x = 1 AND x = 2) IS TRUE\n\
2 0 5; 0.0 x; -; not(all(all(0.0 Eq [1]; 0.0 Eq [2]); 0.0 Eq [3])) @1 | NOT ((x = 1 AND x = 2) AND x = 3)\n\
2 0 5; 0.0 x; -; any(all(0.0 Eq [1]; 1.0 Eq [2]); all(0.0 Eq [3]; 2.0 Eq [4])) @7 | (x = 1 AND id = 2) OR (x = 3 AND \
    sku = 4)\n\
2 0 5; 0.0 x; -; any(any(0.0 Eq [1]; 0.0 Eq [2]); 0.0 Eq [3]) @1 | (x = 1 OR x = 2) OR x = 3\n\
2 0 5; 0.0 x; -; [1] Eq [1] @0 | 1 = 1\n\
2 0 5; 0.0 x; -; 0.0 Ne [1] @1, 0.0 Ne [2] @1 | x <> 1 AND x != 2\n\
2 0 5; 0.0 x; -; 0.0 Lt [1] @1, 0.0 Le [1] @1, 0.0 Gt [1] @1, 0.0 Ge [1] @1 | x < 1 AND x <= 1 AND x > 1 AND x >= 1\n\
2 0 5; 0.0 x; -; [1*0.0 1] Gt 0.0 @1 | x + 1 > x\n\
2 0 5; 0.0 x; -; [-1*0.0 2*0.0 -3*0.0 4] Eq [1*0.0] @1 | -x + 2 * x - x * 3 + 4 = +x\n\
2 0 5; 0.0 x; -; 0.0 Eq [-5] @1, 0.0 Eq [5] @1 | x = -5 AND x = +5\n\
2 0 5; 0.0 x; -; [9223372036854775807 -9223372036854775807] Eq [-9223372036854775807] @0 | 9223372036854775807 - \
    9223372036854775807 = -9223372036854775807\n\
2 0 5; 0.0 x; -; [2147483647*0.0] Eq [-2147483647*0.0] @1 | 2147483647 * x = -x * 2147483647\n\
2 0 5; 0.0 x; -; [0*0.0] Eq [0] @1 | 0 * x = -0\n\
2 0 5; 0.0 x; -; [4*2.1] Eq [-1] @4 | 4 * cost = -1\n\
2 0 5; 0.0 x; -; 2.1 Ge 2.0 @4 | cost >= sku\n\
2 0 5; 0.0 x; -; [1*2.1 -1*0.0] Lt [1*1.0 1*2.0] @7 | cost - x < id + sku\n\
2 0 5; 0.0 x; -; 1.1 Eq 'Ada's' @2 | name = 'Ada''s'\n\
2 0 5; 0.0 x; -; 'a' Lt '' @0 | 'a' < ''\n\
2 0 5; 0.0 x; -; 1.1 Eq NULL @2, 1.0 Eq NULL @2, NULL Eq 2.1 @4, NULL Ne NULL @0, [1 1*1.0] Eq NULL @2 | name = NULL \
    AND id = NULL AND NULL = cost AND NULL <> NULL AND 1 + id = NULL\n\
2 0 5; 0.0 x; -; NULL Ge [1] @0, NULL Le 1.0 @2, any(1.1 Eq NULL; 1.1 Eq 'a') @2, NULL Eq 'a' @0, NULL null @0 | \
    NULL BETWEEN 1 AND id AND name IN (NULL, 'a') AND NULL IN ('a') AND NULL IS NULL\n\
2 0 5; 0.0 x; -; f3(1.1, 'A') @2, f3(NULL, 1.1) @2, f0(1, 2) @0, f0(-1, 0.0) @1 | begins(name, 'A') AND BEGINS(NULL, \
    name) AND divides(1, +2) AND \"Divides\"(-1, x)\n\
2 0 5; 0.0 x; -; f4(2.1, 1.0) @6, not(f4(2.1, -3)) @4, is Unknown(f7(NULL, 2.1)) @4, f7(NULL, NULL) @0 | costs(cost, \
    id) AND NOT costs(cost, -3) AND (rates(NULL, cost)) IS UNKNOWN AND rates(NULL, NULL)";

/// A DECIMAL beside a DECIMAL of another scale.
pub const DECIMALS: &str = "\
5 6; 0.0 sku, 0.1 cost, 1.0 rate; -; 0.1 Eq 1.0 @3 | SELECT sku, cost, rate FROM p, r WHERE cost = rate\n\
5 6; 0.1 cost; -; any(0.1 Eq [1]; 0.1 Eq 1.0; 0.1 Eq 0.0) @3, f7(1.0, 0.1) @3 | SELECT cost FROM p, r WHERE cost IN \
    (1, rate, sku) AND rates(rate, cost)\n\
5; 0.0 sku, 0.1 cost; -; 0.1 Ge 0.0 @1 | SELECT sku, cost FROM p WHERE cost >= sku\n\
5; 0.0 sku; -; [4*0.1] Eq [-1] @1 | SELECT sku FROM p WHERE 4 * cost = -1\n\
5; 0.1 cost; 0.1 up last; - | SELECT cost FROM p ORDER BY cost";

/// Small queries of one table or two.
pub const PLAIN: &str = "\
1; 0.0 oid; -; not(0.1 Eq [1]) @1 | SELECT oid FROM ord WHERE NOT cid = 1\n\
1; 0.0 oid; -; is Unknown(0.1 Eq [1]) @1 | SELECT oid FROM ord WHERE (cid = 1) IS UNKNOWN\n\
1; 0.0 oid; -; not(any(0.2 Eq [5]; 0.2 Eq NULL)) @1 | SELECT oid FROM ord WHERE amt NOT IN (5, NULL)\n\
1; 0.0 oid; 0.1 down first; - | SELECT oid FROM ord ORDER BY cid DESC\n\
1; 0.0 oid; 0.1 down last; - | SELECT oid FROM ord ORDER BY cid DESC NULLS LAST\n\
0; 0.1 name; -; 0.0 Eq [3] @1 | SELECT name FROM cust WHERE id = 3\n\
1; 0.0 oid; -; f2(0.1, 0.0) @1 | SELECT oid FROM ord WHERE near10(cid, oid)\n\
1; 0.0 oid; -; not(f2(0.1, 0.0)) @1 | SELECT oid FROM ord WHERE NOT near10(cid, oid)\n\
1; 0.0 oid; -; is Unknown(f2(0.1, 0.0)) @1 | SELECT oid FROM ord WHERE (near10(cid, oid)) IS UNKNOWN\n\
2; 0.0 x; -; not(f0(0, 0.0)) @1 | SELECT x FROM n WHERE NOT divides(0, x)\n\
2; 0.0 x; -; f1(0.0, -1) @1 | SELECT x FROM n WHERE same_sign(x, -1)\n\
9 10; 0.0 id, 1.1 qty; 0.0 up last; 0.0 Eq 1.0 @3, 0.1 Eq [3] @1 | SELECT p.id, s.qty FROM part p, sale s WHERE p.id \
    = s.part AND p.kind = 3 ORDER BY p.id\n\
10 9 11; 1.0 id, 0.1 qty, 2.1 held; -; 0.0 Eq 1.0 @3, 2.0 Eq 1.0 @6, 2.1 Lt [5] @4 | SELECT p.id, s.qty, t.held FROM \
    sale s, part p, stock t WHERE s.part = p.id AND t.part = p.id AND t.held < 5\n\
9 10; 1.1 qty; -; 0.0 Eq 1.0 @3, [10*0.1] Lt 1.1 @3 | SELECT s.qty FROM part p, sale s WHERE p.id = s.part AND 10 * \
    p.kind < s.qty\n\
2 2 2; 0.0 x; -; [1*0.0 1*1.0] Eq 2.0 @7 | SELECT a.x FROM n a, n b, n c WHERE a.x + b.x = c.x";

/// How each alias is reached stands in the block.
pub const LOOKED_UP: &str = "\
2 0.0 1.1; 1.1 name; -; 0.0 Eq 1.0 @3, 1.0 Eq 2.1 @6 | SELECT name FROM n, cust c, ord o WHERE x = id AND id = cid\n\
4+1 3.1; 1.2 city; -; 1.1 Eq 'a' @2 | SELECT city FROM orders, people WHERE name = 'a'";

/// A script of several lines, but for the semicolon at its end.
pub const BIG_SPENDERS: &str = "-- big spenders\n\
    select p.name as who, o.total from people p join orders o on o.person = p.id \
    where o.total between 50 and 200 and p.city is not null order by o.total desc, who";

/// Its block, and the semicolon.
pub const BIG_BLOCK: &str = "\
3 4; 0.1 who, 1.2 total; 1.2 down first, 0.1 up last; 1.1 Eq 0.0 @3, 1.2 Ge [50] @2, 1.2 Le [200] @2, not(0.2 null) \
    @1 | ;";

/// All of them, each with how the tables are reached and what stands before the text of each case.
const GROUPS: [Group; 6] = [
    Group {
        accesses: "s s s s s s s s s s s s",
        front: "",
        cases: NAMES,
    },
    Group {
        accesses: "s s s s s s s s s s s s",
        front: "SELECT x FROM n, cust, p WHERE ",
        cases: CONDITIONS,
    },
    Group {
        accesses: "s s s s s s s s s s s s",
        front: "",
        cases: DECIMALS,
    },
    Group {
        accesses: "s s s s s s s s s s s s",
        front: "",
        cases: PLAIN,
    },
    Group {
        accesses: "s s s s s s s s s s s s",
        front: BIG_SPENDERS,
        cases: BIG_BLOCK,
    },
    Group {
        accesses: "0 1 s 1 s1 s s s s s s s",
        front: "",
        cases: LOOKED_UP,
    },
];

/// The groups. Its caller's proof doesn't read their texts.
pub fn groups() -> [Group; 6] {
    GROUPS
}
