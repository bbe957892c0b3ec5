//! Texts and their answers, worked out by hand from the grammar: `tree`, or a fault and its place.

/// Scripts of all kinds.
pub const ANSWERS: &str = "\
SELECT x FROM n | tree\n\
SeLeCt x aS y fRoM n wHeRe x Is NoT nUlL oRdEr bY x DeSc nUlLs LaSt | tree\n\
select * from n; | tree\n\
SELECT ALL n.*, n.x y FROM n, m CROSS JOIN k | tree\n\
SELECT x AS a FROM n AS b INNER JOIN m ON b.x = m.y | tree\n\
SELECT x FROM n WHERE x = 1 AND y <> 2 OR NOT z >= 3 | tree\n\
SELECT x FROM n WHERE x != -2 * x + y * 3 - 4 | tree\n\
SELECT x FROM n WHERE +x <= 1 AND x < NULL AND 'a' > x | tree\n\
SELECT x FROM n WHERE x NOT BETWEEN 1 AND 2 AND 3 = 3 | tree\n\
SELECT x FROM n WHERE x NOT IN (1, 2) AND y IN (NULL) | tree\n\
SELECT x FROM n WHERE x IS NULL IS NOT TRUE | tree\n\
SELECT x FROM n WHERE (x IS NOT NULL) IS UNKNOWN | tree\n\
SELECT x FROM n WHERE f(x, -1, 'a', NULL, n.x) | tree\n\
SELECT nulls FROM n ORDER BY nulls NULLS FIRST, first ASC NULLS LAST, last DESC | tree\n\
SELECT \"a\"\"b\" FROM \"select\" -- x | tree\n\
SELECT x FROM n; SELECT y FROM n; | tree\n\
SELECT x FROM n WHERE 2147483647 * x = 9223372036854775807 | tree\n\
; | Syntax 0\n\
SELECT | Syntax 6\n\
SELECT FROM t | Syntax 7\n\
SELECT x, FROM n | Syntax 10\n\
SELECT DISTINCT x FROM n | tree\n\
SELECT x FROM n;; | Syntax 16\n\
SELECT x FROM n WHERE NOT x = 1 = 1 | Syntax 32\n\
SELECT x FROM n WHERE x IN ( | Syntax 28\n\
SELECT x FROM n WHERE x NOT NULL | Syntax 28\n\
SELECT x FROM n WHERE x ! 1 | Syntax 24\n\
SELECT x FROM n WHERE x = 'a'' | Syntax 26\n\
SELECT x FROM n WHERE x = 1 OR | Syntax 30\n\
SELECT x FROM n WHERE x + NULL = 1 | Syntax 26\n\
SELECT x FROM n WHERE \"f\"(x) IS NULL | Syntax 32\n\
SELECT x FROM n JOIN m | Syntax 22\n\
SELECT x FROM n ORDER BY x NULLS | Syntax 32\n\
SELECT x FROM n WHERE x < 9223372036854775808 | NumberTooLarge 26\n\
SELECT x FROM n WHERE 2147483648 * x = 1 | NumberTooLarge 22\n\
SELECT x FROM n WHERE x * 2147483648 = 1 | NumberTooLarge 26\n\
SELECT x FROM n WHERE f(3000000000 * | NumberTooLarge 24\n\
SELECT x FROM n WHERE f(3000000000) | tree\n\
SELECT x FROM n GROUP BY x | tree\n\
";

/// Set functions, GROUP BY, DISTINCT and LIMIT; and their words as names.
pub const SHAPES: &str = "\
SELECT COUNT(*) FROM n | tree\n\
SELECT count ( * ), Sum(x) AS s, MIN(n.x) m, max(\"x\") FROM n | tree\n\
SELECT DISTINCT x, y FROM n WHERE x = 1 GROUP BY x, n.y ORDER BY x LIMIT 5 | tree\n\
SELECT DISTINCT * FROM n LIMIT 0; | tree\n\
SELECT x FROM n ORDER BY x LIMIT 9223372036854775807 | tree\n\
SELECT count, sum AS min, max FROM n | tree\n\
SELECT count.sum, min.* FROM count, min max WHERE sum(max, 1) | tree\n\
SELECT x count FROM n sum GROUP BY min, max.sum ORDER BY count, max DESC | tree\n\
SELECT MAX x FROM n | tree\n\
SELECT COUNT(COUNT), MIN(min.max) FROM min | tree\n\
SELECT SUM(*) FROM n | Syntax 11\n\
SELECT \"count\"(x) FROM n | Syntax 14\n\
SELECT \"SUM\"(x) FROM n | Syntax 12\n\
SELECT COUNT() FROM n | Syntax 13\n\
SELECT COUNT(x, y) FROM n | Syntax 14\n\
SELECT COUNT(1) FROM n | Syntax 13\n\
SELECT COUNT(DISTINCT x) FROM n | Syntax 13\n\
SELECT COUNT(n.*) FROM n | Syntax 15\n\
SELECT MAX(x FROM n | Syntax 13\n\
SELECT n.SUM(x) FROM n | Syntax 12\n\
SELECT AVG(x) FROM n | Syntax 10\n\
SELECT x, COUNT (y) z w FROM n | Syntax 22\n\
SELECT DISTINCT ALL x FROM n | Syntax 16\n\
SELECT ALL DISTINCT x FROM n | Syntax 11\n\
SELECT x DISTINCT FROM n | Syntax 9\n\
SELECT DISTINCT FROM n | Syntax 16\n\
SELECT x FROM n GROUP x | Syntax 22\n\
SELECT x FROM n GROUP BY | Syntax 24\n\
SELECT x FROM n GROUP BY x, LIMIT 1 | Syntax 28\n\
SELECT x FROM n GROUP BY COUNT(x) | Syntax 30\n\
SELECT x FROM n GROUP BY x AS y | Syntax 27\n\
SELECT x FROM n GROUP BY x WHERE x = 1 | Syntax 27\n\
SELECT x FROM n ORDER BY x GROUP BY x | Syntax 27\n\
SELECT x FROM n GROUP BY x HAVING x = 1 | Syntax 27\n\
SELECT x FROM n ORDER BY COUNT(x) | Syntax 30\n\
SELECT x FROM n LIMIT | Syntax 21\n\
SELECT x FROM n LIMIT x | Syntax 22\n\
SELECT x FROM n LIMIT -1 | Syntax 22\n\
SELECT x FROM n LIMIT 1 ORDER BY x | Syntax 24\n\
SELECT x FROM n LIMIT 1 LIMIT 2 | Syntax 24\n\
SELECT x FROM n LIMIT 1, 2 | Syntax 23\n\
SELECT x FROM n LIMIT 5 * x | Syntax 24\n\
SELECT x FROM n LIMIT 9223372036854775808 | NumberTooLarge 22\n\
SELECT x FROM n LIMIT 2147483648 * | NumberTooLarge 22\n\
SELECT x FROM n WHERE COUNT(x) = 1 | Syntax 31\n\
SELECT x FROM n WHERE COUNT(*) = 1 | Syntax 28\n\
COUNT(*) FROM n | Syntax 0\n\
";

/// Scripts each front of which spells a script, or is refused at its end, or at the word in which it ends.
pub const SHAPED: [&str; 3] = [
    "SELECT DISTINCT n.*, x AS count FROM n JOIN m ON n.x = m.x ORDER BY count DESC NULLS LAST LIMIT 10;",
    "select count(*) k, SUM(t.x), min ( y ) AS sum from t group by t.z, y order by k limit 3",
    "SELECT max, COUNT(max) FROM sum WHERE min IN (1, 2) GROUP BY max; SELECT MAX(x) FROM n LIMIT 0",
];

/// Each keyword and sign missing, doubled or out of place.
pub const PLACES: &str = "\
x FROM n | Syntax 0\n\
SELECT x n m | Syntax 11\n\
SELECT x FROM n x = 1 | Syntax 18\n\
SELECT x FROM n ORDER x | Syntax 22\n\
SELECT x FROM n CROSS m | Syntax 22\n\
SELECT x FROM n INNER m ON x = 1 | Syntax 22\n\
SELECT x FROM n JOIN m x = 1 | Syntax 25\n\
SELECT x FROM n BY x | Syntax 16\n\
SELECT x FROM n AND x = 1 | Syntax 16\n\
SELECT x FROM n WHERE x BETWEEN 1 2 | Syntax 34\n\
SELECT x FROM n WHERE x 1 AND 2 | Syntax 24\n\
SELECT x FROM n WHERE x IS x | Syntax 27\n\
SELECT x FROM n WHERE x IS NOT x | Syntax 31\n\
SELECT x FROM n ORDER BY x FIRST | Syntax 27\n\
SELECT SELECT x FROM n | Syntax 7\n\
SELECT ALL ALL x FROM n | Syntax 11\n\
SELECT x FROM FROM n | Syntax 14\n\
SELECT x AS AS y FROM n | Syntax 12\n\
SELECT x FROM n CROSS CROSS JOIN m | Syntax 22\n\
SELECT x FROM n JOIN JOIN m ON x = 1 | Syntax 21\n\
SELECT x FROM n JOIN m ON ON x = 1 | Syntax 26\n\
SELECT x FROM n WHERE WHERE x = 1 | Syntax 22\n\
SELECT x FROM n WHERE x = 1 AND AND y = 2 | Syntax 32\n\
SELECT x FROM n WHERE x = 1 OR OR y = 2 | Syntax 31\n\
SELECT x FROM n WHERE x IS IS NULL | Syntax 27\n\
SELECT x FROM n WHERE x IS NOT NOT NULL | Syntax 31\n\
SELECT x FROM n WHERE x IN IN (1) | Syntax 27\n\
SELECT x FROM n WHERE x BETWEEN BETWEEN 1 AND 2 | Syntax 32\n\
SELECT x FROM n WHERE x NOT NOT IN (1) | Syntax 28\n\
SELECT x FROM n ORDER ORDER BY x | Syntax 22\n\
SELECT x FROM n ORDER BY BY x | Syntax 25\n\
SELECT x FROM n ORDER BY x DESC DESC | Syntax 32\n\
SELECT x FROM n ORDER BY x NULLS NULLS LAST | Syntax 33\n\
SELECT x WHERE x = 1 FROM n | Syntax 9\n\
SELECT x FROM n ORDER BY x WHERE x = 1 | Syntax 27\n\
SELECT x FROM n LIMIT 1 | tree\n\
SELECT x FROM n LEFT JOIN m ON x = 1 | Syntax 16\n\
SELECT x FROM n UNION SELECT x FROM n | Syntax 16\n\
SELECT x FROM n HAVING x = 1 | Syntax 16\n\
SELECT x FROM n ON x = 1 | Syntax 16\n\
SELECT x FROM n CROSS JOIN m ON x = 1 | Syntax 29\n\
SELECT x FROM n WHERE x LIKE 'a' | Syntax 24\n\
SELECT x FROM n WHERE EXISTS (x) | Syntax 22\n\
SELECT x FROM n WHERE CASE | Syntax 22\n\
SELECT x FROM n WHERE x = TRUE | Syntax 26\n\
SELECT x FROM n WHERE UNKNOWN | Syntax 22\n\
SELECT x FROM n WHERE x = NOT 1 | Syntax 26\n\
SELECT x FROM n WHERE x IS TRUE | Syntax 27\n\
SELECT 1 FROM n | Syntax 7\n\
SELECT 'a' FROM n | Syntax 7\n\
SELECT (x) FROM n | Syntax 7\n\
SELECT x FROM 'n' | Syntax 14\n\
SELECT x FROM 1 | Syntax 14\n\
SELECT x FROM n.m | Syntax 15\n\
SELECT x.y.z FROM n | Syntax 10\n\
SELECT x.* y FROM n | Syntax 11\n\
SELECT *, x FROM n | Syntax 8\n\
SELECT x FROM n, | Syntax 16\n\
SELECT x FROM (n) | Syntax 14\n\
SELECT x FROM n WHERE  | Syntax 22\n\
SELECT x FROM n WHERE 1 | Syntax 23\n\
SELECT x FROM n WHERE 'a' | Syntax 25\n\
SELECT x FROM n WHERE x | Syntax 23\n\
SELECT x FROM n WHERE () | Syntax 23\n\
SELECT x FROM n WHERE (x = 1 | Syntax 28\n\
SELECT x FROM n WHERE (x) = 1 | Syntax 24\n\
SELECT x FROM n WHERE x = (1) | Syntax 26\n\
SELECT x FROM n WHERE x = 1) | Syntax 27\n\
SELECT x FROM n WHERE x == 1 | Syntax 25\n\
SELECT x FROM n WHERE x = - - 1 | Syntax 28\n\
SELECT x FROM n WHERE x = 'a' + 1 | Syntax 30\n\
SELECT x FROM n WHERE x = 2 * 3 | Syntax 30\n\
SELECT x FROM n WHERE x = 2 * -x | Syntax 30\n\
SELECT x FROM n WHERE x = y * z | Syntax 30\n\
SELECT x FROM n WHERE x = y * 2 * 3 | Syntax 32\n\
SELECT x FROM n WHERE x = NULL IS NULL | Syntax 34\n\
SELECT x FROM n WHERE x IN () | Syntax 28\n\
SELECT x FROM n WHERE x IN (1,) | Syntax 30\n\
SELECT x FROM n WHERE x IN 1 | Syntax 27\n\
SELECT x FROM n WHERE f() | Syntax 24\n\
SELECT x FROM n WHERE f(x | Syntax 25\n\
SELECT x FROM n WHERE f(2 * x) | Syntax 26\n\
SELECT x FROM n WHERE f(x + 1) | Syntax 26\n\
SELECT x FROM n WHERE f(x) = 1 | Syntax 27\n\
SELECT x FROM n WHERE \"count\" (x) AND | Syntax 37\n\
SELECT x FROM n WHERE x = 1.5 | Syntax 27\n\
SELECT x FROM n WHERE 9223372036854775808 =  | NumberTooLarge 22\n\
SELECT x FROM n WHERE x = = 9223372036854775808 | Syntax 26\n\
SELECT x FROM n WHERE 2147483648 * 9223372036854775808 = 1 | NumberTooLarge 22\n\
SELECT x FROM n WHERE x = 2147483648 * ; | NumberTooLarge 26\n\
SELECT * 2147483648 FROM n | Syntax 9\n\
SELECT 9223372036854775808 | Syntax 7\n\
SELECT x FROM n WHERE x IN (9223372036854775808,  | NumberTooLarge 28\n\
SELECT x FROM n WHERE x * 9223372036854775808 !  | NumberTooLarge 26\n\
SELECT x FROM n WHERE x ! 9223372036854775808 | Syntax 24\n\
SELECT x FROM n WHERE x = 'a | Syntax 26\n\
SELECT \"x FROM n | Syntax 7\n\
SELECT \"\" FROM n | Syntax 7\n\
SELECT x FROM n ! | Syntax 16\n\
! | Syntax 0\n\
SELECT x FROM n WHERE x = 1 # | Syntax 28\n\
SELECT x FROM n;; | Syntax 16\n\
;SELECT x FROM n | Syntax 0\n\
SELECT x FROM n; ; SELECT y FROM n | Syntax 17\n\
-- nothing | Syntax 10\n\
SELECT x FROM n WHERE -- x = 1 | Syntax 30\n\
SELECT x FROM n WHERE x NULL | Syntax 24\n\
SELECT x FROM n WHERE (x = 1) TRUE | Syntax 30\n\
SELECT x FROM n WHERE x = 1 y = 2 | Syntax 28\n\
SELECT x FROM n WHERE 2 (1) | Syntax 24\n\
SELECT x FROM n WHERE x NOT (1) | Syntax 28\n\
SELECT x FROM n ORDER BY x NULLS, x | Syntax 32\n\
SELECT x FROM n INNER INNER JOIN m ON x = 1 | Syntax 22\n\
SELECT x FROM n ORDER BY x ASC ASC | Syntax 31\n\
SELECT x FROM n ORDER BY x NULLS FIRST FIRST | Syntax 39\n\
SELECT x FROM n ORDER BY x NULLS LAST LAST | Syntax 38\n\
SELECT x FROM n WHERE x BETWEEN 1 AND AND 2 | Syntax 38\n\
SELECT x FROM n WHERE x = NULL NULL | Syntax 31\n\
SELECT x FROM n WHERE (x = 1) IS TRUE TRUE | Syntax 38\n\
SELECT x FROM n WHERE (x = 1) IS FALSE FALSE | Syntax 39\n\
SELECT x FROM n WHERE (x = 1) IS UNKNOWN UNKNOWN | Syntax 41\n\
SELECT x FROM n SELECT y FROM m | Syntax 16\n\
SELECT x FROM n ALL | Syntax 16\n\
FROM n SELECT x | Syntax 0\n\
SELECT AS x FROM n | Syntax 7\n\
SELECT x FROM CROSS JOIN n | Syntax 14\n\
SELECT x FROM INNER JOIN n ON x = 1 | Syntax 14\n\
SELECT x FROM JOIN n ON x = 1 | Syntax 14\n\
SELECT x FROM n BY ORDER x | Syntax 16\n\
SELECT x FROM n ORDER BY ASC x | Syntax 25\n\
SELECT x FROM n ORDER BY DESC x | Syntax 25\n\
SELECT x FROM n NULLS FIRST | Syntax 22\n\
SELECT x FROM n WHERE AND x = 1 | Syntax 22\n\
SELECT x FROM n WHERE OR x = 1 | Syntax 22\n\
SELECT x FROM n WHERE BETWEEN 1 AND 2 | Syntax 22\n\
SELECT x FROM n WHERE IN (1) | Syntax 22\n\
SELECT x FROM n WHERE IS NULL | Syntax 22\n\
SELECT x FROM n WHERE x = NOT NULL | Syntax 26\n\
SELECT NULL FROM n | Syntax 7\n\
SELECT x FROM n WHERE FALSE | Syntax 22\n\
SELECT x FROM n WHERE x = LAST (1) | Syntax 31\n\
SELECT x FROM n WHERE (x = 1) IS | Syntax 32\n\
SELECT x FROM n WHERE x IS | Syntax 26\n\
SELECT x FROM n WHERE x IS NOT | Syntax 30\n\
";

/// A front, a piece and how often it follows, and an end, with bars between: what is open at once, and how many follow.
pub const LIMITS: &str = "\
SELECT x FROM n WHERE |(|65| | TooDeep 86\n\
SELECT x FROM n WHERE |(|64|x = 1)))))))))))))))))))))))))))))))))))))))))))))))))))))))))))))))) | tree\n\
SELECT x FROM n WHERE |NOT |65|x = 1 | TooDeep 278\n\
|SELECT x FROM n;|64| | tree\n\
|SELECT x FROM n;|65| | TooManyStatements 1024\n\
SELECT x FROM n WHERE |NOT (|32|( | TooDeep 182\n\
SELECT x FROM n WHERE |NOT (|32|NOT  | TooDeep 182\n\
SELECT x FROM n WHERE |(NOT |32|(( | TooDeep 182\n\
SELECT x FROM n WHERE |(NOT |31|((x = 1 | Syntax 184\n\
SELECT x FROM n WHERE |NOT |64|x IN (1) | tree\n\
SELECT x FROM n WHERE |NOT |64|f(1) | tree\n\
SELECT x FROM n WHERE |NOT |64|x IN (( | Syntax 284\n\
SELECT x FROM n WHERE |(x = 1) AND |70|x = 1 | tree\n\
SELECT x FROM n WHERE |NOT x = 1 OR |70|x = 1 | tree\n\
SELECT x FROM n WHERE |(|64|) | Syntax 86\n\
SELECT x FROM n WHERE |(|64|9223372036854775808 (( | NumberTooLarge 86\n\
SELECT x FROM n WHERE |(|65|9223372036854775808 | TooDeep 86\n\
SELECT x FROM n;|SELECT x FROM n;|63|x | Syntax 1024\n\
SELECT x FROM n;|SELECT x FROM n;|64|SELECT ( | TooManyStatements 1024\n\
SELECT (; |SELECT x FROM n;|64| | Syntax 7\n\
|SELECT x FROM n; |64|-- the end | tree\n\
";

/// The lengths of fronts of BIG_SPENDERS, from one up to another, and their answers.
pub const FRONTS: &str = "\
0 1 | Syntax at its end\n\
1 2 | Syntax 0\n\
2 17 | Syntax at its end\n\
17 22 | Syntax 16\n\
22 52 | Syntax at its end\n\
52 61 | tree\n\
61 64 | Syntax 60\n\
64 67 | Syntax at its end\n\
67 68 | Syntax 65\n\
68 70 | Syntax at its end\n\
70 71 | Syntax 65\n\
71 75 | Syntax at its end\n\
75 76 | Syntax 74\n\
76 89 | Syntax at its end\n\
89 90 | tree\n\
90 91 | Syntax at its end\n\
91 94 | tree\n\
94 98 | Syntax 93\n\
98 108 | Syntax at its end\n\
108 114 | Syntax 107\n\
114 119 | Syntax at its end\n\
119 121 | Syntax 118\n\
121 123 | Syntax at its end\n\
123 127 | tree\n\
127 129 | Syntax 126\n\
129 138 | Syntax at its end\n\
138 139 | Syntax 137\n\
139 141 | Syntax at its end\n\
141 143 | Syntax 140\n\
143 145 | Syntax at its end\n\
145 148 | Syntax 144\n\
148 150 | tree\n\
150 151 | Syntax 149\n\
151 152 | Syntax at its end\n\
152 154 | Syntax 149\n\
154 156 | Syntax at its end\n\
156 157 | Syntax 155\n\
157 159 | Syntax at its end\n\
159 160 | tree\n\
160 161 | Syntax at its end\n\
161 167 | tree\n\
167 170 | Syntax 166\n\
170 171 | tree\n\
171 173 | Syntax at its end\n\
173 176 | tree\n\
";
