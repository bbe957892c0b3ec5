//! Runs of statements with groups, DISTINCT or LIMIT.

// Lines and refusals, by one worker and by four; the counts are of the runs that found the members.
pub const SHAPED: &str = "\
ord | SELECT cid, COUNT(*) AS k, SUM(amt) FROM ord GROUP BY cid ORDER BY k DESC |  | 0 Done | cid,k,sum/1,2,12/2,1,5\
    /,1,9/ | \n\
--workers 4 ord | SELECT cid, COUNT(*) AS k, SUM(amt) FROM ord GROUP BY cid ORDER BY k DESC |  | 0 Done | cid,k,sum/\
    1,2,12/2,1,5/,1,9/ | \n\
ord | SELECT COUNT(cid), MIN(amt), MAX(amt) FROM ord WHERE amt > 100 |  | 0 Done | count,min,max/0,,/ | \n\
--workers 4 ord | SELECT COUNT(cid), MIN(amt), MAX(amt) FROM ord WHERE amt > 100 |  | 0 Done | count,min,max/0,,/ | \n\
ord | SELECT DISTINCT amt FROM ord ORDER BY amt LIMIT 2 |  | 0 Done | amt/5/7/ | \n\
--workers 4 ord | SELECT DISTINCT amt FROM ord ORDER BY amt LIMIT 2 |  | 0 Done | amt/5/7/ | \n\
n | SELECT x FROM n LIMIT 0 |  | 0 Done | x/ | \n\
--workers 4 n | SELECT x FROM n LIMIT 0 |  | 0 Done | x/ | \n\
huge | SELECT SUM(x) FROM huge |  | 0 Done | sum/18446744073709551614/ | \n\
--workers 4 huge | SELECT SUM(x) FROM huge |  | 0 Done | sum/18446744073709551614/ | \n\
cust ord | SELECT name, COUNT(*) AS k, SUM(amt) FROM cust c, ord o WHERE c.id = o.cid GROUP BY name ORDER BY name DE\
    SC |  | 0 Done | name,k,sum/Bob,1,5/Ada,2,12/ | \n\
--lookup ord.cid cust ord | SELECT name, COUNT(*), MAX(oid) FROM cust c, ord o WHERE c.id = o.cid GROUP BY name |  \
    | 0 Done | name,count,max/Ada,2,11/Bob,1,12/ | \n\
n | SELECT x FROM n LIMIT 1; SELECT x FROM n; SELECT COUNT(*) FROM n; SELECT x FROM n WHERE x = 2 |  | 0 Done | x/1/\
    /x/1/2/3//count/3//x/2/ | \n\
e | SELECT COUNT(*), SUM(x) FROM e; SELECT x, COUNT(*) FROM e GROUP BY x |  | 0 Done | count,sum/0,//x,count/ | \n\
p | SELECT SUM(cost), MIN(cost) AS least FROM p; SELECT DISTINCT cost FROM p ORDER BY cost DESC NULLS LAST LIMIT 2 \
    |  | 0 Done | sum,least/11.25,-0.25//cost/10.00/1.50/ | \n\
ord | SELECT DISTINCT cid, cid AS cid2 FROM ord ORDER BY cid2 DESC NULLS LAST |  | 0 Done | cid,cid2/2,2/1,1/,/ | \n\
! --tally q ord=ord | SELECT cid, COUNT(*) AS k, SUM(amt) FROM ord GROUP BY cid ORDER BY k DESC |  | 0 Done | cid,k,\
    sum/1,2,12/2,1,5/,1,9/ | query 1: built 4 hops 2 looked 0/\n\
! --tally --policy script --route s0 q n=n | SELECT x FROM n LIMIT 1; SELECT COUNT(*) FROM n WHERE x = 2 |  | 0 Don\
    e | x/1//count/1/ | query 1: built 3 hops 2 looked 0/query 2: built 1 hops 3 looked 0/\n\
! --tally q n=n | SELECT x FROM n LIMIT 1; SELECT COUNT(*) FROM n | note 45 | 6 Write | x/1//count/3/ | query 1: bui\
    lt 3 hops 2 looked 0/query 2: bui\n\
ord | SELECT DISTINCT amt FROM ord | put 2 1 | 6 Write | amt/5 | write fault/\n\
n | SELECT x FROM n LIMIT 2; SELECT COUNT(*) FROM n | put 5 0 | 6 Write | x/1/2// | write fault/\n\
ord | SELECT oid FROM ord GROUP BY cid |  | 3 Bind { statement: 1, fault: NotGrouped { at: 7 } } |  | statement 1: n\
    ot grouped at byte 7/\n\
ord | SELECT DISTINCT oid FROM ord ORDER BY cid |  | 3 Bind { statement: 1, fault: NotSelected { at: 38 } } |  | sta\
    tement 1: not selected at byte 38/\n\
n | SELECT SUM(*) FROM n |  | 3 Script { fault: Syntax { at: 11 } } |  | script: syntax at byte 11/\n\
cust | SELECT id FROM cust; SELECT SUM(name) FROM cust |  | 3 Bind { statement: 2, fault: TypeMismatch { at: 32 } } \
    |  | statement 2: type mismatch at byte 32/\n\
";
