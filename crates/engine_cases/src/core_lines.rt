//! Cases of the core, as lines of text.

/// The tables of most cases.
pub const TABLES: &str = "\
cust id:int,name:text/1,Ada/2,Bob/3,
ord oid:int,cid:int,amt:int/10,1,5/11,1,7/12,2,5/13,,9
n x:int/1/2/3
e x:int";

/// Runs, each with what is wanted: how often the policy was asked, the most hops, a slash, and how many rows were
/// built, keys looked up and combinations found; a bar, the ways of the tables, a bar, the statement, a bar, and the
/// policy.
pub const RUNS: &str = "\
14 3 / 7 0 3 | s s s s | SELECT name, amt FROM cust c, ord o WHERE c.id = o.cid ORDER BY amt DESC | v0
26 4 / 7 0 3 | s s s s | SELECT name, amt FROM cust c, ord o WHERE c.id = o.cid ORDER BY amt DESC | a0,a1
0 0 / 0 0 0 | s s s s | SELECT x FROM e | v0
3 2 / 3 0 3 | s s s s | SELECT x FROM n | lottery
14 3 / 7 0 3 | s s s s | SELECT name, amt FROM cust c, ord o WHERE c.id = o.cid ORDER BY amt DESC | greedy
21 4 / 8 0 4 | s s s s | SELECT o.oid FROM ord o, ord p WHERE o.cid = p.cid AND o.oid <= p.oid | v0
37 5 / 8 0 4 | s s s s | SELECT o.oid FROM ord o, ord p WHERE o.cid = p.cid AND o.oid <= p.oid | a0,a1
12 3 / 6 3 3 | s 1 s s | SELECT name, amt FROM cust c, ord o WHERE c.id = o.cid | v0
16 4 / 6 3 3 | s 1 s s | SELECT name, amt FROM cust c, ord o WHERE c.id = o.cid | a0,a1
17 3 / 7 3 3 | s s1 s s | SELECT name, amt FROM cust c, ord o WHERE c.id = o.cid | v0
12 3 / 6 2 3 | 0 s s s | SELECT name, amt FROM ord o, cust c WHERE o.cid = c.id | v0
20 4 / 7 0 8 | s s s s | SELECT p.x FROM ord o, n p WHERE p.x BETWEEN o.cid AND o.amt | w0
22 4 / 7 0 8 | s s s s | SELECT p.x FROM ord o, n p WHERE p.x BETWEEN o.cid AND o.amt | v0
12 3 / 6 0 3 | s s s s | SELECT a.x FROM n a, n b WHERE b.x BETWEEN a.x AND a.x | w0";

/// Runs under each policy: how many rows are built, keys looked up and combinations found, whichever it is; the ways,
/// the statement, and the hops that are never passed.
pub const BOUNDS: &str = "\
/ 7 0 3 | s s s s | SELECT name, amt FROM cust c, ord o WHERE c.id = o.cid ORDER BY amt DESC | 4
/ 8 0 4 | s s s s | SELECT o.oid FROM ord o, ord p WHERE o.cid = p.cid AND o.oid <= p.oid | 5
/ 6 3 3 | s 1 s s | SELECT name, amt FROM cust c, ord o WHERE c.id = o.cid | 4
/ 6 2 3 | 0 s s s | SELECT name, amt FROM ord o, cust c WHERE o.cid = c.id | 4
/ 7 0 8 | s s s s | SELECT p.x FROM ord o, n p WHERE p.x BETWEEN o.cid AND o.amt | 5";

/// The policies, as words.
pub const POLICIES: &str = "lottery pressure greedy v0 a0,a1 b,a1,v0";

/// Runs by a script, each told whole. First what is wanted: the rows of the first two aliases of each combination with
/// its stamp, in the order of finding; the build log, as alias:row in the order of the stamps; and the looked keys as
/// alias:key, in millionths. Then a bar, the ways of the tables, a bar, the statement, a bar, and the script.
///
/// By scans a row of each alias is claimed in turn. The rows of an asked key come before the next claim. By the script
/// `a0,a1` a row is joined with all that were built before it, and then selected: the last tuple first, so that of the
/// last row of `b` with that of `a` before it is found before that with the first.
pub const WHOLE: &str = "\
0,0@1 0,1@3 1,2@5; 0:0 1:0 0:1 1:1 0:2 1:2 1:3; | s s s s | SELECT name, amt FROM cust c, ord o WHERE c.id = o.cid | v0
0,0@1 0,1@2 1,2@4; 0:0 1:0 1:1 0:1 1:2 0:2; 1:1000000 1:2000000 1:3000000 | s 1 s s \
    | SELECT name, amt FROM cust c, ord o WHERE c.id = o.cid | v0
0,1@3 1,2@5 0,2@5; 0:0 1:0 0:1 1:1 0:2 1:2; | s s s s | SELECT a.x FROM n a, n b WHERE a.x < b.x | a0,a1
0,0@1 1,1@3 2,2@5; 0:0 1:0 0:1 1:1 0:2 1:2; | s s s s \
    | SELECT a.x FROM n a, n b WHERE b.x BETWEEN a.x AND a.x | w0";

/// Listed events. First what is wanted: the answer of each event; behind `log`, the built rows as alias:row; behind
/// `keys`, the asked keys as alias:key:fetched rows, with a dot where the key is ended (a number's key is in
/// millionths); behind `found`, the rows of what was found, with the stamp. Then a bar, the ways of the tables, a bar,
/// the statement, a bar, and the events.
pub const EVENTS: &str = "\
1 NotLegal 1 NotLegal NotLegal log 0:0 keys found | s s s s | SELECT a.x FROM n a, n b WHERE a.x < b.x \
| claim.0 select.0.0 build.0.0 end.0 fetch.0
1 1 1 1 1 1 0 0 1 1 log 0:0 1:0 1:1 keys found 0,1@2 | s s s s | SELECT a.x FROM n a, n b WHERE a.x < b.x \
| claim.0 build.0.0 claim.1 build.1.1 claim.1 build.2.1 range.0.1.0 range.0.0.0 all.0.0 select.0.0
1 1 0 1 1 NotLegal NotLegal 1 1 0 1 1 log 0:0 1:0 1:1 keys 1:1000000:2. found 0,0@1 0,1@2 | s 1 s s \
| SELECT name, amt FROM cust c, ord o WHERE c.id = o.cid \
| claim.0 build.0.0 equal.0.1.0 fetch.0 fetch.0 fetch.0 end.0 build.0.1 build.0.1 end.0 equal.0.0.0 equal.0.0.0
1 1 0 NotLegal 1 NotLegal NotLegal NotLegal NotLegal log 0:0 keys 1:1000000:1 found | s 1 s s \
| SELECT name, amt FROM cust c, ord o WHERE c.id = o.cid \
| claim.0 build.0.0 equal.0.1.0 end.0 fetch.0 end.0 fetch.1 end.1 claim.1
1 1 1 NotLegal 1 0 NotLegal 0 NotLegal NotLegal log 0:2 keys 1:3000000:0. found | s 1 s s \
| SELECT name, amt FROM cust c, ord o WHERE c.id = o.cid \
| claim.0 claim.0 claim.0 claim.0 build.2.0 equal.2.1.0 fetch.0 end.0 end.0 fetch.0
1 1 NotLegal NotLegal log 0:0 keys found | s 1 s s | SELECT name, amt FROM cust c, ord o WHERE c.id = o.cid \
| claim.0 build.0.0 all.0.1 equal.0.0.0
1 1 1 0 1 0 1 NotLegal NotLegal 1 2 0 log 0:0 0:1 1:0 keys 1:1000000:1. found 0,0@2 1,0@2 | 0 s s s \
| SELECT oid FROM ord o, cust c WHERE o.cid = c.id \
| claim.0 claim.0 build.0.0 equal.1.1.0 build.0.0 equal.0.1.0 fetch.0 fetch.0 fetch.1 build.0.1 equal.0.0.0 end.0
1 1 0 1 1 0 NotLegal 1 1 0 log 0:0 1:1 keys 1:1000000:2. found | s 1 s s \
| SELECT name, amt FROM cust c, ord o WHERE c.id = o.cid AND o.amt > 5 \
| claim.0 build.0.0 equal.0.1.0 fetch.0 fetch.0 select.0.1 end.0 select.0.1 build.0.1 end.0
1 1 0 1 1 1 0 1 NotLegal 1 0 log 0:0 1:0 1:1 keys 1:1000000:2. found | s s1 s s \
| SELECT name, amt FROM cust c, ord o WHERE c.id = o.cid \
| claim.0 build.0.0 equal.0.1.0 claim.1 build.0.1 fetch.0 build.1.1 fetch.0 end.0 build.1.1 end.0
1 1 1 1 1 1 NotLegal 1 1 0 1 0 log 0:0 1:0 2:0 keys found 0,0@2 | s s s s \
| SELECT b.x FROM n a, n b, n c WHERE b.x BETWEEN a.x AND c.x \
| claim.0 build.0.0 claim.1 build.1.1 claim.2 build.2.2 band.0.1.0 all.2.0 band.2.1.0 all.0.1 all.0.0 all.0.2
1 1 1 1 NotLegal NotLegal NotLegal 1 NotLegal 0 log 0:0 1:0 keys found | s s s s \
| SELECT b.x FROM n a, n b WHERE b.x >= a.x AND b.x > a.x \
| claim.0 build.0.0 claim.1 build.1.1 band.1.0.0 band.0.1.0 band.1.0.1 range.1.0.0 band.1.1.0 select.1.1
1 1 NotLegal log 0:0 keys found | s 1 s s \
| SELECT name FROM cust c, ord o WHERE c.id = o.cid AND o.amt BETWEEN c.id AND c.id \
| claim.0 build.0.0 band.0.1.1";

/// A list of built rows, row 0 of alias 0 and row 1 of alias 1, and the combinations that it replays to.
pub const REPLAYS: &str =
    "0 1 at 1 | s s s s | SELECT a.x AS p, b.x AS q FROM n a, n b WHERE a.x < b.x | built";

/// How many calls a recorder of the script `v0` keeps over a run, with so much room.
pub const CALLS: &str =
    "28 | s s s s | SELECT name, amt FROM cust c, ord o WHERE c.id = o.cid | 28";

/// The tables of the surveys. `a` has two keys, and each of them four times in `b`; in the chain `p`, `q`, `r` each row
/// has two on its right, and a condition on `s` keeps one row of eight.
pub const CHAIN: &str = "\
a x:int/1/2
b y:int/1/1/1/1/2/2/2/2
c z:int/1/2/3
p id:int,b:int/0,1/1,1/2,2/3,2/4,3/5,3/6,4/7,4
q a:int,b:int/1,1/1,1/2,2/2,2/3,3/3,3/4,4/4,4
r a:int,s:int/1,0/1,1/2,2/2,3/3,4/3,5/4,6/4,7";

/// Surveys: the order of the aliases; a bar, the ways of the tables, a bar, and the statement.
///
/// Of `a` and `b` each may drive for ten tuples: the one of more rows does. Of the chain its middle and its filtered
/// tail cost 19 tuples, and its head 25; the middle is closer to the others. Without an equality the first of about
/// equal rows drives, and a table that isn't scanned is left out.
pub const SURVEYS: &str = "\
0 1 | s s s s s s | SELECT x FROM a, b WHERE a.x = b.y
1 0 | s s s s s s | SELECT x FROM b, a WHERE a.x = b.y
0 | s s s s s s | SELECT x FROM a
1 0 | s s s s s s | SELECT x FROM a, c
0 2 1 | s s s s s s | SELECT id FROM p, q, r WHERE p.b = q.a AND q.b = r.a AND r.s < 1
2 0 1 | s s s s s s | SELECT id FROM r, q, p WHERE p.b = q.a AND q.b = r.a AND r.s < 1
0 | s 0 s s s s | SELECT x FROM a, b WHERE a.x = b.y";
