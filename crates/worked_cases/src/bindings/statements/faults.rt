//! Statements and their faults, worked out by hand. A case is what is wanted, a bar, and a text behind the front
//! of its group: `block` and the number of conjuncts, or a fault and its place, for each statement.

use crate::bindings::statements::Group;

/// The first round.
pub const FROM: &str = "\
UnknownTable 11 | SELECT*FROM\"m\"\n\
UnknownTable 56 | SELECT x FROM n,n a,n b,n c,n d,n e,n f,n g,n h,n i,n j,m\n\
UnknownTable 27 | SELECT x FROM n CROSS JOIN m CROSS JOIN m\n\
UnknownTable 21 | SELECT x FROM n JOIN m ON 1 = 1\n\
RepeatedAlias 14 | SELECT*FROM n,n\n\
RepeatedAlias 21 | SELECT x FROM n a, n A\n\
RepeatedAlias 64 | SELECT x FROM n,n a,n b,n c,n d,n e,n f,n g,n h,n i,n j,cust AS \"C\"\n\
RepeatedAlias 22 | SELECT * FROM cust n, n\n\
RepeatedAlias 33 | SELECT * FROM n cust, ord b JOIN cust ON 1 = 1\n\
RepeatedAlias 30 | SELECT * FROM n \"a b\", n c, n \"A B\", n c\n\
block 0 | SELECT * FROM n \"É\", n \"é\", n \"e\"\n\
TooManyAliases 58 | SELECT*FROM n,n a,n b,n c,n d,n e,n f,n g,n h,n i,n j,n k,n l\n\
TooManyAliases 71 | SELECT x FROM n,n a,n b,n c,n d,n e,n f,n g,n h,n i,n j,n k CROSS JOIN \"n\" AS l\n\
TooManyAliases 65 | SELECT x FROM n,n a,n b,n c,n d,n e,n f,n g,n h,n i,n j,n k JOIN n l ON 1 = 1,n m\n\
block 0 | SELECT a.x FROM one a, one b, one c, one d, one e, one f, one g, one h, one i, one j, one k, one l\n\
TooManyAliases 100 | SELECT a.x FROM one a, one b, one c, one d, one e, one f, one g, one h, one i, one j, one k, \
    one l, one m\n\
UnknownTable 14 | SELECT * FROM m, n, n\n\
RepeatedAlias 17 | SELECT * FROM n, n, m\n\
UnknownTable 19 | SELECT * FROM n m, m\n\
UnknownTable 19 | SELECT * FROM n m, k m\n\
UnknownTable 14 | SELECT * FROM m,n a,n b,n c,n d,n e,n f,n g,n h,n i,n j,n k,n l\n\
TooManyAliases 60 | SELECT * FROM n,n a,n b,n c,n d,n e,n f,n g,n h,n i,n j,n k,n l,m\n\
UnknownTable 60 | SELECT * FROM n,n a,n b,n c,n d,n e,n f,n g,n h,n i,n j,n k,m\n\
RepeatedAlias 16 | SELECT * FROM n,n,n b,n c,n d,n e,n f,n g,n h,n i,n j,n k,n l\n\
TooManyAliases 60 | SELECT * FROM n,n a,n b,n c,n d,n e,n f,n g,n h,n i,n j,n k,n a\n\
RepeatedAlias 60 | SELECT * FROM n,n a,n b,n c,n d,n e,n f,n g,n h,n i,n j,n k,n\n\
TooManyAliases 60 | SELECT * FROM n,n a,n b,n c,n d,n e,n f,n g,n h,n i,n j,n k,n l,n l";

/// Names of columns and of aliases.
pub const COLUMNS: &str = "\
UnknownAlias 6 | SELECT\"b\".x FROM n\n\
UnknownAlias 7 | SELECT b.* FROM n\n\
UnknownAlias 12 | SELECT n.*, b.* FROM n\n\
UnknownAlias 28 | SELECT x FROM n ORDER BY x, b.x\n\
UnknownAlias 7 | SELECT n.x FROM n a\n\
UnknownAlias 7 | SELECT \"é\".x FROM n \"É\"\n\
UnknownAlias 26 | SELECT x FROM n WHERE x = b.x\n\
UnknownColumn 6 | SELECT\"y\"FROM n\n\
UnknownColumn 10 | SELECT x, y, z FROM n\n\
UnknownColumn 7 | SELECT n.y FROM n\n\
UnknownColumn 28 | SELECT x FROM n ORDER BY x, y\n\
UnknownColumn 45 | SELECT x FROM n ORDER BY x DESC NULLS FIRST, n.\"x \"\n\
UnknownColumn 38 | SELECT x FROM n WHERE 'é' = 'é' AND y = 1\n\
UnknownColumn 7 | SELECT n FROM n\n\
UnknownColumn 34 | SELECT x FROM n WHERE x IN (1, x, y)\n\
UnknownColumn 38 | SELECT x FROM n WHERE x BETWEEN 1 AND y\n\
UnknownColumn 40 | SELECT x FROM n WHERE NOT (x = 1 OR 2 * y IS NULL)\n\
UnknownColumn 33 | SELECT x FROM n WHERE divides(1, y)\n\
block 0; UnknownColumn 24 | SELECT x FROM n; SELECT y FROM n\n\
block 0; block 0 | SELECT x FROM n; SELECT x FROM n;\n\
AmbiguousColumn 6 | SELECT\"x\"FROM n,n b\n\
AmbiguousColumn 7 | SELECT id FROM cust a, cust b\n\
AmbiguousColumn 7 | SELECT ID FROM people, cust, orders\n\
AmbiguousColumn 31 | SELECT a.x FROM n a, n b WHERE x = 1\n\
AmbiguousColumn 55 | SELECT name, total FROM people, orders ORDER BY total, id\n\
UnknownColumn 31 | SELECT a.x AS y FROM n a WHERE y = 1\n\
UnknownColumn 37 | SELECT a.x AS y FROM n a ORDER BY y, a.y\n\
block 0 | SELECT a.x FROM n a, n b ORDER BY x\n\
block 0 | SELECT a.x, a.X FROM n a, n b ORDER BY x\n\
block 0 | SELECT a.*, a.x, b.x AS y FROM n a, n b ORDER BY x\n\
AmbiguousColumn 44 | SELECT a.x, b.x FROM n a, n b ORDER BY a.x, x\n\
AmbiguousColumn 32 | SELECT * FROM n a, n b ORDER BY x\n\
AmbiguousColumn 49 | SELECT a.x AS y, b.x AS Y FROM n a, n b ORDER BY \"y\"\n\
AmbiguousColumn 41 | SELECT amt AS oid, oid FROM ord ORDER BY oid\n\
block 0 | SELECT amt AS oid, oid FROM ord ORDER BY ord.oid\n\
AmbiguousColumn 39 | SELECT a.x AS y FROM n a, n b ORDER BY x\n\
UnknownAlias 38 | SELECT a.x FROM n a JOIN n b ON a.x = c.x JOIN n c ON 1 = 1\n\
UnknownColumn 34 | SELECT a.x FROM n a JOIN ord b ON name = 1 JOIN cust c ON 1 = 1\n\
AmbiguousColumn 32 | SELECT a.x FROM n a JOIN n b ON x = 1\n\
block 2 | SELECT a.x FROM n a JOIN ord b ON x = 1 JOIN n c ON a.x = c.x\n\
AmbiguousColumn 52 | SELECT a.x FROM n a JOIN ord b ON x = 1 JOIN n c ON x = 1\n\
block 1 | SELECT a.x FROM n a, n b JOIN n c ON a.x = c.x\n\
block 1 | SELECT name FROM cust c JOIN ord o ON id = cid\n\
block 1 | SELECT name FROM cust c JOIN ord o ON \"C\".\"ID\" = O.CID\n\
block 1 | SELECT \"K K\".x FROM n \"k k\" WHERE \"k K\".X = 1\n\
block 1 | select SELECT_.x from n SELECT_ where select_.x = 1";

/// Numbers and texts: what may be compared.
pub const TYPES: &str = "\
TypeMismatch 32 | name = 1\n\
TypeMismatch 42 | 1 = 1 AND cust.name = id\n\
TypeMismatch 32 | 1 = 'a'\n\
TypeMismatch 32 | -1 = 'a'\n\
TypeMismatch 32 | 1 + id = 'a'\n\
TypeMismatch 32 | 'a' <> 1\n\
TypeMismatch 36 | NOT id < 'a'\n\
TypeMismatch 34 | ((id >= name)) IS NOT TRUE\n\
TypeMismatch 32 | id BETWEEN 1 AND 'a'\n\
TypeMismatch 32 | id NOT BETWEEN 'a' AND 1\n\
TypeMismatch 32 | name BETWEEN 'a' AND 1\n\
TypeMismatch 32 | id IN ('a')\n\
TypeMismatch 32 | id NOT IN (1, 2, 'a')\n\
TypeMismatch 32 | NULL IN (1, 'a')\n\
TypeMismatch 32 | NULL BETWEEN name AND id\n\
TypeMismatch 32 | 'a' IN (NULL, 1)\n\
TypeMismatch 32 | cost = 'a'\n\
TypeMismatch 32 | name < cost\n\
TypeMismatch 32 | cost IN (1, 'a', rate)\n\
TypeMismatch 32 | cost + 1 = name\n\
block 1 | cost = id\n\
block 1 | cost = 1 + 2 * id - cost\n\
block 1 | cost IN (1, sku, rate)\n\
block 2 | cost BETWEEN rate AND sku\n\
block 1 | name = 'a'\n\
block 1 | 'a' < name\n\
block 8 | name = NULL AND id = NULL AND cost = NULL AND NULL = NULL AND 'a' = NULL AND 1 + id = NULL AND NULL IN \
    (NULL) AND NULL IS NULL\n\
block 8 | NULL BETWEEN 1 AND id AND name BETWEEN NULL AND 'b' AND cost IN (NULL, 1) AND name NOT IN ('a', NULL) AND \
    NULL IN ('a') AND NULL NOT BETWEEN NULL AND NULL\n\
TypeMismatch 40 | 1 = 1 + name\n\
TypeMismatch 33 | -name = 'a'\n\
TypeMismatch 33 | +name = 'a'\n\
TypeMismatch 36 | 2 * name = 1\n\
TypeMismatch 32 | name * 2 = 1\n\
TypeMismatch 32 | name + name = 'a'\n\
TypeMismatch 40 | 1 - 2 * cust.name > 0\n\
TypeMismatch 53 | id BETWEEN 1 AND 2 + name\n\
TypeMismatch 43 | id IN (1, -name)\n\
TypeMismatch 33 | -name IS NOT NULL\n\
block 1 | name IS NOT NULL\n\
UnknownColumn 32 | y = 'a'\n\
UnknownColumn 38 | 'a' = y\n\
UnknownColumn 42 | 'a' = 1 + y\n\
UnknownAlias 36 | 1 = b.name\n\
TypeMismatch 32 | 1 IN (y, 'a')\n\
TypeMismatch 39 | 'a' = -name\n\
TooManyTerms 48 | 1+1+1+1+1+1+1+1+1 = 'a'\n\
TooManyTerms 62 | 'a' = id+id+id+id+id+id+id+id+id\n\
UnknownFunction 32 | f(1, 2)\n\
UnknownFunction 46 | NOT (1 = 1 OR \"divides \"(1, 2))\n\
WrongArguments 32 | divides(1)\n\
WrongArguments 45 | 1 = 1 OR NOT Divides(1, 2, 3)\n\
WrongArguments 32 | divides(y)\n\
UnknownFunction 32 | f(name)\n\
TypeMismatch 40 | divides(name, id)\n\
TypeMismatch 44 | divides(id, 'a')\n\
TypeMismatch 40 | divides('a', y)\n\
UnknownColumn 40 | divides(y, 'a')\n\
TypeMismatch 40 | divides(cost, 1)\n\
TypeMismatch 39 | begins(1, name)\n\
TypeMismatch 45 | begins(name, -1)\n\
TypeMismatch 39 | begins(cost, 'a')\n\
TypeMismatch 38 | costs(rate, 1)\n\
TypeMismatch 38 | costs(sku, 1)\n\
TypeMismatch 38 | costs(1, 1)\n\
TypeMismatch 38 | costs('1', 1)\n\
TypeMismatch 44 | costs(cost, cost)\n\
TypeMismatch 38 | rates(cost, cost)\n\
TypeMismatch 44 | rates(rate, rate)\n\
block 9 | divides(id, sku) AND divides(-1, 2) AND begins(name, 'a') AND begins('a', name) AND costs(cost, id) AND \
    costs(cost, +3) AND rates(rate, cost) AND NOT COSTS(NULL, NULL) AND (rates(NULL, cost)) IS UNKNOWN";

/// The 9th term and the 49th conjunct.
pub const LIMITS: &str = "\
TooManyTerms 62 | n.x+n.x+n.x+n.x+n.x+n.x+n.x+n.x+n.x>0\n\
TooManyTerms 47 | -1-1-1-1-1-1-1-1-1=0\n\
TooManyTerms 48 | 0=1+1+1+1+1+1+1+1+2*a.x\n\
TooManyTerms 48 | 0=1+1+1+1+1+1+1+1+a.x*2+1\n\
TooManyTerms 56 | 0 BETWEEN 1+1+1+1+1+1+1+1+1 AND 1+1+1+1+1+1+1+1+1\n\
TooManyTerms 62 | 0 BETWEEN 0 AND 1+1+1+1+1+1+1+1+1\n\
TooManyTerms 55 | 0 IN (0, 1+1+1+1+1+1+1+1-1, 1+1+1+1+1+1+1+1+1+1)\n\
TooManyTerms 46 | 1+1+1+1+1+1+1+1-1 IS NULL\n\
block 1 | 1+1+1+1+1+1+1+1=-a.x-a.x-a.x-a.x-a.x-a.x-a.x-a.x\n\
TooManyConjuncts 414 | 1=1| AND 1=1|48\n\
TooManyConjuncts 414 | 1=1| AND 1=1|60\n\
block 48 | 1=1| AND 1=1|47\n\
TooManyConjuncts 420 | (1=1| AND 1=1|47| AND NOT (a.x=1 OR a.x=2))\n\
TooManyConjuncts 426 | (1=1| AND 1=1|47| AND ((NOT (NOT -1=1))))\n\
TooManyConjuncts 421 | (1=1| AND 1=1|47|) AND (NOT divides(1, 1)) IS TRUE\n\
TooManyConjuncts 416 | (1=1| AND 1=1|47| AND (NULL IS NULL AND 1=1))\n\
TooManyConjuncts 406 | 1=1| AND 1=1|46| AND a.x BETWEEN 1 AND 2\n\
block 48 | 1=1| AND 1=1|45| AND a.x BETWEEN 1 AND 2\n\
TooManyConjuncts 414 | 1=1| AND 1=1|47| AND a.x BETWEEN 1 AND 2\n\
block 48 | 1=1| AND 1=1|46| AND a.x NOT BETWEEN 1 AND 2\n\
block 48 | 1=1| AND 1=1|46| AND a.x IN (1, 2, 3)\n\
TooManyConjuncts 414 | 1=1| AND 1=1|47| AND a.x NOT IN (1, 2, 3)\n\
block 48 | 1=1| AND 1=1|46| AND (1=1 AND 1=1 OR 1=1)\n\
TooManyConjuncts 463 | (1=1 AND 1=1)| AND (1=1 AND 1=1)|24\n\
TooManyConjuncts 416 | 1=1| AND 1=1|47| WHERE 'a'='a'\n\
TooManyConjuncts 417 | 1=1| AND 1=1|46| WHERE 1=1 AND ('a'='a')\n\
block 48 | 1=1| AND 1=1|46| WHERE 1=1\n\
TooManyConjuncts 422 | 1=1| AND 1=1|40| JOIN n c ON 1=1 AND 1=1 AND 1=1 AND 1=1 AND 1=1 AND 1=1 AND 1=1 AND c.x=1\n\
TooManyConjuncts 422 | 1=1| AND 1=1|47| JOIN n c ON c.x=1 WHERE 1=1";

/// The first place at which a fault of a condition can stand.
pub const EARLIEST: &str = "\
TypeMismatch 19 | SELECT*FROM\"n\"WHERE'a'=1\n\
UnknownFunction 19 | SELECT*FROM\"n\"WHERE\"f\"(1,2)\n\
WrongArguments 19 | SELECT*FROM\"n\"WHERE\"divides\"(1)\n\
TooManyTerms 36 | SELECT*FROM\"n\"WHERE-1-1-1-1-1-1-1-1-1=0\n\
TooManyConjuncts 355 | SELECT*FROM\"n\"WHERE-1=1|AND-1=1|48\n\
TooManyTerms 38 | SELECT x FROM n WHERE x+x+x+x+x+x+x+x+x>0\n\
TooManyConjuncts 406 | SELECT x FROM n WHERE x=1| AND x=1|48\n\
block 48 | SELECT x FROM n WHERE x=1| AND x=1|47\n\
TypeMismatch 28 | SELECT name FROM cust WHERE name = 1\n\
TypeMismatch 34 | SELECT id FROM cust WHERE divides(name, id)\n\
UnknownFunction 36 | SELECT a.x, b.x FROM n a, n b WHERE divide(a.x, b.x)\n\
WrongArguments 36 | SELECT a.x, b.x FROM n a, n b WHERE divides(a.x)";

/// Two faults of the second round, in both orders.
pub const PAIRS: &str = "\
UnknownAlias 43 | b.x = 1 AND y = 1\n\
UnknownAlias 43 | b.x = 1 AND id = 1\n\
UnknownAlias 43 | b.x = 1 AND name = 1\n\
UnknownAlias 43 | b.x = 1 AND f(1, 2)\n\
UnknownAlias 43 | b.x = 1 AND divides(1)\n\
UnknownAlias 43 | b.x = 1 AND 1+1+1+1+1+1+1+1+1 = 9\n\
UnknownColumn 43 | y = 1 AND b.x = 1\n\
UnknownColumn 43 | y = 1 AND id = 1\n\
UnknownColumn 43 | y = 1 AND name = 1\n\
UnknownColumn 43 | y = 1 AND f(1, 2)\n\
UnknownColumn 43 | y = 1 AND divides(1)\n\
UnknownColumn 43 | y = 1 AND 1+1+1+1+1+1+1+1+1 = 9\n\
AmbiguousColumn 43 | id = 1 AND b.x = 1\n\
AmbiguousColumn 43 | id = 1 AND y = 1\n\
AmbiguousColumn 43 | id = 1 AND name = 1\n\
AmbiguousColumn 43 | id = 1 AND f(1, 2)\n\
AmbiguousColumn 43 | id = 1 AND divides(1)\n\
AmbiguousColumn 43 | id = 1 AND 1+1+1+1+1+1+1+1+1 = 9\n\
TypeMismatch 43 | name = 1 AND b.x = 1\n\
TypeMismatch 43 | name = 1 AND y = 1\n\
TypeMismatch 43 | name = 1 AND id = 1\n\
TypeMismatch 43 | name = 1 AND f(1, 2)\n\
TypeMismatch 43 | name = 1 AND divides(1)\n\
TypeMismatch 43 | name = 1 AND 1+1+1+1+1+1+1+1+1 = 9\n\
UnknownFunction 43 | f(1, 2) AND b.x = 1\n\
UnknownFunction 43 | f(1, 2) AND y = 1\n\
UnknownFunction 43 | f(1, 2) AND id = 1\n\
UnknownFunction 43 | f(1, 2) AND name = 1\n\
UnknownFunction 43 | f(1, 2) AND divides(1)\n\
UnknownFunction 43 | f(1, 2) AND 1+1+1+1+1+1+1+1+1 = 9\n\
WrongArguments 43 | divides(1) AND b.x = 1\n\
WrongArguments 43 | divides(1) AND y = 1\n\
WrongArguments 43 | divides(1) AND id = 1\n\
WrongArguments 43 | divides(1) AND name = 1\n\
WrongArguments 43 | divides(1) AND f(1, 2)\n\
WrongArguments 43 | divides(1) AND 1+1+1+1+1+1+1+1+1 = 9\n\
TooManyTerms 59 | 1+1+1+1+1+1+1+1+1 = 9 AND b.x = 1\n\
TooManyTerms 59 | 1+1+1+1+1+1+1+1+1 = 9 AND y = 1\n\
TooManyTerms 59 | 1+1+1+1+1+1+1+1+1 = 9 AND id = 1\n\
TooManyTerms 59 | 1+1+1+1+1+1+1+1+1 = 9 AND name = 1\n\
TooManyTerms 59 | 1+1+1+1+1+1+1+1+1 = 9 AND f(1, 2)\n\
TooManyTerms 59 | 1+1+1+1+1+1+1+1+1 = 9 AND divides(1)\n\
UnknownAlias 43 | b.x = 1| AND 1=1|48\n\
TooManyConjuncts 427 | 1=1| AND 1=1|47| AND 1=1 AND b.x = 1\n\
UnknownColumn 43 | y = 1| AND 1=1|48\n\
TooManyConjuncts 427 | 1=1| AND 1=1|47| AND 1=1 AND y = 1\n\
AmbiguousColumn 43 | id = 1| AND 1=1|48\n\
TooManyConjuncts 427 | 1=1| AND 1=1|47| AND 1=1 AND id = 1\n\
TypeMismatch 43 | name = 1| AND 1=1|48\n\
TooManyConjuncts 427 | 1=1| AND 1=1|47| AND 1=1 AND name = 1\n\
UnknownFunction 43 | f(1, 2)| AND 1=1|48\n\
TooManyConjuncts 427 | 1=1| AND 1=1|47| AND 1=1 AND f(1, 2)\n\
WrongArguments 43 | divides(1)| AND 1=1|48\n\
TooManyConjuncts 427 | 1=1| AND 1=1|47| AND 1=1 AND divides(1)\n\
TooManyTerms 59 | 1+1+1+1+1+1+1+1+1 = 9| AND 1=1|48\n\
TooManyConjuncts 427 | 1=1| AND 1=1|47| AND 1=1 AND 1+1+1+1+1+1+1+1+1 = 9";

/// Two or three faults of the second round at one place.
pub const SAME: &str = "\
UnknownAlias 43 | b.x IN (1, 'a')\n\
UnknownColumn 43 | y IN (1, 'a')\n\
AmbiguousColumn 43 | id IN (1, 'a')\n\
UnknownFunction 43 | f(1)\n\
UnknownAlias 427 | 1=1| AND 1=1|47| AND b.x = 1\n\
UnknownColumn 427 | 1=1| AND 1=1|47| AND y = 1\n\
AmbiguousColumn 427 | 1=1| AND 1=1|47| AND id = 1\n\
TypeMismatch 427 | 1=1| AND 1=1|47| AND name = 1\n\
UnknownFunction 427 | 1=1| AND 1=1|47| AND f(1, 2)\n\
WrongArguments 427 | 1=1| AND 1=1|47| AND divides(1)\n\
UnknownAlias 427 | 1=1| AND 1=1|47| AND b.x IN (1, 'a')\n\
UnknownFunction 431 | 1=1| AND 1=1|47| AND NOT f(1)\n\
TooManyTerms 435 | 1=1| AND 1=1|46| AND 1+1+1+1+1+1+1+1+1=9 AND 1=1\n\
TooManyConjuncts 427 | 1=1| AND 1=1|47| AND 1+1+1+1+1+1+1+1+1=9\n\
UnknownAlias 59 | 1+1+1+1+1+1+1+1+b.x = 9\n\
UnknownColumn 59 | 1+1+1+1+1+1+1+1+y = 9\n\
AmbiguousColumn 59 | 1+1+1+1+1+1+1+1+id = 9\n\
TypeMismatch 59 | 1+1+1+1+1+1+1+1+name = 9\n\
TooManyTerms 59 | 1+1+1+1+1+1+1+1+2*name = 9\n\
TypeMismatch 59 | 1+1+1+1+1+1+1+1+name*2 = 9";

/// FROM comes before the rest, wherever it stands.
pub const ROUNDS: &str = "\
UnknownTable 52 | b.x = 1,m\n\
RepeatedAlias 54 | b.x = 1,n o\n\
TooManyAliases 92 | b.x = 1,n a,n b,n c,n d,n e,n f,n g,n h,n i,n j,n k\n\
UnknownTable 50 | y = 1,m\n\
RepeatedAlias 52 | y = 1,n o\n\
TooManyAliases 90 | y = 1,n a,n b,n c,n d,n e,n f,n g,n h,n i,n j,n k\n\
UnknownTable 51 | id = 1,m\n\
RepeatedAlias 53 | id = 1,n o\n\
TooManyAliases 91 | id = 1,n a,n b,n c,n d,n e,n f,n g,n h,n i,n j,n k\n\
UnknownTable 53 | name = 1,m\n\
RepeatedAlias 55 | name = 1,n o\n\
TooManyAliases 93 | name = 1,n a,n b,n c,n d,n e,n f,n g,n h,n i,n j,n k\n\
UnknownTable 52 | f(1, 2),m\n\
RepeatedAlias 54 | f(1, 2),n o\n\
TooManyAliases 92 | f(1, 2),n a,n b,n c,n d,n e,n f,n g,n h,n i,n j,n k\n\
UnknownTable 55 | divides(1),m\n\
RepeatedAlias 57 | divides(1),n o\n\
TooManyAliases 95 | divides(1),n a,n b,n c,n d,n e,n f,n g,n h,n i,n j,n k\n\
UnknownTable 66 | 1+1+1+1+1+1+1+1+1 = 9,m\n\
RepeatedAlias 68 | 1+1+1+1+1+1+1+1+1 = 9,n o\n\
TooManyAliases 106 | 1+1+1+1+1+1+1+1+1 = 9,n a,n b,n c,n d,n e,n f,n g,n h,n i,n j,n k\n\
UnknownTable 432 | 1=1| AND 1=1|48|,m\n\
RepeatedAlias 434 | 1=1| AND 1=1|48|,n o\n\
TooManyAliases 472 | 1=1| AND 1=1|48|,n a,n b,n c,n d,n e,n f,n g,n h,n i,n j,n k";

/// The select list stands before FROM, and comes behind it.
pub const SELECTED: &str = "\
UnknownTable 14 | SELECT y FROM m\n\
RepeatedAlias 19 | SELECT b.* FROM n, n\n\
TooManyAliases 60 | SELECT x FROM n,n a,n b,n c,n d,n e,n f,n g,n h,n i,n j,n k,n l\n\
UnknownColumn 7 | SELECT y FROM n a, n b WHERE x = 1 ORDER BY z\n\
UnknownAlias 31 | SELECT a.x FROM n a, n b WHERE c.x = 1 ORDER BY x, y";

/// The rest comes before reach.
pub const ROUNDS_AND_REACH: &str = "\
UnknownAlias 37 | b.x = 1\n\
UnknownColumn 37 | y = 1\n\
AmbiguousColumn 37 | oid = 1\n\
TypeMismatch 37 | 'a' = 1\n\
UnknownFunction 37 | f(1, 2)\n\
WrongArguments 37 | divides(1)\n\
TooManyTerms 53 | 1+1+1+1+1+1+1+1+1 = 9\n\
TooManyConjuncts 421 | 1=1| AND 1=1|48\n\
Unreachable 0 | 1=1| AND 1=1|47";

/// FROM comes before reach.
pub const FROM_AND_REACH: &str = "\
UnknownTable 25 | , m\n\
RepeatedAlias 29 | , ord O\n\
TooManyAliases 90 | ,ord a,ord b,ord c,ord d,ord e,ord f,ord g,ord h,ord i,ord j,ord k,ord l\n\
Unreachable 0 | ";

/// Aliases of `ord` are reached by a look-up in `cid` alone.
pub const REACH: &str = "\
Unreachable 0 | SELECT * FROM ord\n\
Unreachable 0 | SELECT oid FROM ord WHERE cid = 1\n\
Unreachable 0 | SELECT o.oid FROM ord o, ord p WHERE o.cid = p.cid\n\
Unreachable 1 | SELECT name FROM cust, ord\n\
Unreachable 0 | SELECT name FROM ord, cust\n\
Unreachable 1 | SELECT name FROM cust, ord, ord b\n\
Unreachable 2 | SELECT name FROM cust, n, ord b\n\
block 1 | SELECT name, amt FROM cust c, ord o WHERE c.id = o.cid\n\
block 1 | SELECT name, amt FROM cust c, ord o WHERE o.cid = c.id\n\
block 1 | SELECT name, amt FROM ord o, cust c WHERE o.cid = c.id\n\
block 1 | SELECT name, amt FROM cust c JOIN ord o ON c.id = o.cid\n\
block 2 | SELECT name FROM cust c, ord o WHERE ((o.cid = c.id) AND o.oid > 1)\n\
block 1 | SELECT name FROM cust c, ord o WHERE o.cid = 1\n\
block 1 | SELECT name FROM cust c, ord o WHERE 1 = o.cid\n\
block 1 | SELECT name FROM cust c, ord o WHERE o.cid = -1\n\
block 1 | SELECT name FROM cust c, ord o WHERE o.cid = +1\n\
block 1 | SELECT name FROM cust c, ord o WHERE o.cid = NULL\n\
block 1 | SELECT name FROM cust c, ord o WHERE NULL = o.cid\n\
block 1 | SELECT name FROM cust c, ord o WHERE o.cid IN (1)\n\
block 1 | SELECT name FROM cust c, ord o WHERE c.id IN (o.cid)\n\
Unreachable 1 | SELECT name FROM cust c, ord o WHERE c.id <= o.cid\n\
Unreachable 1 | SELECT name FROM cust c, ord o WHERE o.cid <> c.id\n\
Unreachable 1 | SELECT name FROM cust c, ord o WHERE c.id = o.cid OR 1 = 2\n\
Unreachable 1 | SELECT name FROM cust c, ord o WHERE (c.id = o.cid) IS TRUE\n\
Unreachable 1 | SELECT name FROM cust c, ord o WHERE NOT c.id <> o.cid\n\
Unreachable 1 | SELECT name FROM cust c, ord o WHERE NOT NOT c.id = o.cid\n\
Unreachable 1 | SELECT name FROM cust c, ord o WHERE c.id + 0 = o.cid\n\
Unreachable 1 | SELECT name FROM cust c, ord o WHERE +c.id = o.cid\n\
Unreachable 1 | SELECT name FROM cust c, ord o WHERE 1 * c.id = o.cid\n\
Unreachable 1 | SELECT name FROM cust c, ord o WHERE c.id = -o.cid\n\
Unreachable 1 | SELECT name FROM cust c, ord o WHERE o.cid = 1 + 1\n\
Unreachable 1 | SELECT name FROM cust c, ord o WHERE o.cid IN (1, 1)\n\
Unreachable 1 | SELECT name FROM cust c, ord o WHERE o.cid NOT IN (1)\n\
Unreachable 1 | SELECT name FROM cust c, ord o WHERE o.cid BETWEEN 1 AND 1\n\
Unreachable 1 | SELECT name FROM cust c, ord o WHERE o.oid = c.id\n\
Unreachable 1 | SELECT name FROM cust c, ord o WHERE o.oid = 1\n\
Unreachable 1 | SELECT name FROM cust c, ord o WHERE o.cid = o.amt\n\
Unreachable 1 | SELECT name FROM cust c, ord o WHERE o.cid = o.cid\n\
Unreachable 1 | SELECT name FROM cust c, ord o WHERE o.cid IS NULL\n\
Unreachable 1 | SELECT name FROM cust c, ord o WHERE divides(o.cid, c.id)\n\
Unreachable 1 | SELECT name FROM cust c, ord o WHERE c.id = 1\n\
block 2 | SELECT name FROM ord p, ord o, cust c WHERE p.cid = o.amt AND o.cid = c.id\n\
block 2 | SELECT name FROM ord p, ord o, cust c WHERE o.cid = c.id AND o.amt = p.cid\n\
block 2 | SELECT name FROM ord p, ord o, cust c WHERE p.cid = o.amt AND o.cid = 7\n\
Unreachable 0 | SELECT name FROM ord p, ord o, cust c WHERE p.cid = o.amt AND o.cid = p.amt\n\
Unreachable 2 | SELECT name FROM cust c, ord o, ord p WHERE o.cid = c.id AND p.cid <> o.amt\n\
Unreachable 1 | SELECT name FROM cust c, ord o, ord p WHERE p.cid = c.id AND o.cid > p.amt\n\
block 11 | SELECT name FROM cust l,ord a,ord b,ord c,ord d,ord e,ord f,ord g,ord h,ord i,ord j,ord k WHERE \
    a.cid=l.id AND b.cid=a.amt AND c.cid=b.amt AND d.cid=c.amt AND e.cid=d.amt AND f.cid=e.amt AND g.cid=f.amt AND \
    h.cid=g.amt AND i.cid=h.amt AND j.cid=i.amt AND k.cid=j.amt\n\
block 11 | SELECT name FROM ord k,ord j,ord i,ord h,ord g,ord f,ord e,ord d,ord c,ord b,ord a,cust l WHERE \
    k.cid=j.amt AND j.cid=i.amt AND i.cid=h.amt AND h.cid=g.amt AND g.cid=f.amt AND f.cid=e.amt AND e.cid=d.amt AND \
    d.cid=c.amt AND c.cid=b.amt AND b.cid=a.amt AND a.cid=l.id\n\
Unreachable 11 | SELECT name FROM cust l,ord a,ord b,ord c,ord d,ord e,ord f,ord g,ord h,ord i,ord j,ord k WHERE \
    a.cid=l.id AND b.cid=a.amt AND c.cid=b.amt AND d.cid=c.amt AND e.cid=d.amt AND f.cid=e.amt AND g.cid=f.amt AND \
    h.cid=g.amt AND i.cid=h.amt AND j.cid=i.amt AND k.amt=j.cid";

/// `cust` by `id`, `ord` by `cid`, `people` by `name`, each alone, and `orders` by `person` or a scan.
pub const LOOK_UPS: &str = "\
Unreachable 0 | SELECT name FROM cust c, ord o WHERE c.id = o.cid\n\
Unreachable 0 | SELECT name FROM cust WHERE id = 1\n\
block 2 | SELECT name FROM n, cust c, ord o WHERE x = id AND id = cid\n\
block 2 | SELECT name FROM ord o, cust c, n WHERE x = id AND id = cid\n\
Unreachable 1 | SELECT name FROM n, cust c, ord o WHERE c.id = o.cid\n\
block 2 | SELECT city FROM orders, people WHERE name = 'a' AND person = total\n\
block 2 | SELECT p.city FROM n, people p, cust c WHERE c.name = p.name AND c.id = x\n\
Unreachable 1 | SELECT p.city FROM orders o, people p WHERE p.id = o.person\n\
block 0 | SELECT total FROM orders";

/// All of them, each with how the tables are reached and what stands before the text of each case.
const GROUPS: [Group; 13] = [
    Group {
        accesses: "s s s s s s s s s s s s",
        front: "",
        cases: FROM,
    },
    Group {
        accesses: "s s s s s s s s s s s s",
        front: "",
        cases: COLUMNS,
    },
    Group {
        accesses: "s s s s s s s s s s s s",
        front: "SELECT id FROM cust, p, r WHERE ",
        cases: TYPES,
    },
    Group {
        accesses: "s s s s s s s s s s s s",
        front: "SELECT a.x FROM n a JOIN n ON ",
        cases: LIMITS,
    },
    Group {
        accesses: "s s s s s s s s s s s s",
        front: "",
        cases: EARLIEST,
    },
    Group {
        accesses: "s s s s s s s s s s s s",
        front: "SELECT total FROM people p, orders o WHERE ",
        cases: PAIRS,
    },
    Group {
        accesses: "s s s s s s s s s s s s",
        front: "SELECT total FROM people p, orders o WHERE ",
        cases: SAME,
    },
    Group {
        accesses: "s s s s s s s s s s s s",
        front: "SELECT total FROM people p JOIN orders o ON ",
        cases: ROUNDS,
    },
    Group {
        accesses: "s s s s s s s s s s s s",
        front: "",
        cases: SELECTED,
    },
    Group {
        accesses: "s 1 s s s s s s s s s s",
        front: "SELECT o.amt FROM ord o, ord q WHERE ",
        cases: ROUNDS_AND_REACH,
    },
    Group {
        accesses: "s 1 s s s s s s s s s s",
        front: "SELECT o.amt FROM ord o",
        cases: FROM_AND_REACH,
    },
    Group {
        accesses: "s 1 s s s s s s s s s s",
        front: "",
        cases: REACH,
    },
    Group {
        accesses: "0 1 s 1 s1 s s s s s s s",
        front: "",
        cases: LOOK_UPS,
    },
];

/// The groups. Its caller's proof doesn't read their texts.
pub fn groups() -> [Group; 13] {
    GROUPS
}
