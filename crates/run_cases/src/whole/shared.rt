//! Runs of all statements together.

// Answers as without the option, and one line of counts for all statements: each row of a table is built once.
pub const SHARED: &str = "\
! --shared --tally q n=n | SELECT a.x, b.x FROM n a, n b WHERE a.x = b.x; SELECT x FROM n WHERE x > 1 |  | 0 Done | x\
    ,x/1,1/2,2/3,3//x/2/3/ | shared: built 3 hops 3/\n\
! --shared --tally --workers 4 q cust=cust ord=ord | SELECT name, amt FROM cust c, ord o WHERE c.id = o.cid ORDER BY \
    amt DESC; SELECT o.oid FROM ord o, ord p WHERE o.cid = p.cid AND o.oid <= p.oid |  | 0 Done | name,amt/Ada,7/Ada,\
    5/Bob,5//oid/10/10/11/12/ | shared: built 7 hops 4/\n\
! --shared --tally q n=n t=t | SELECT x FROM n LIMIT 1; SELECT COUNT(*) FROM n; SELECT x FROM t; SELECT x FROM n ORDE\
    R BY x DESC |  | 0 Done | x/1//count/3//x/1/1//x/3/2/1/ | shared: built 5 hops 2/\n\
! --shared --tally q n=n t=t | SELECT x FROM n |  | 0 Done | x/1/2/3/ | shared: built 3 hops 2/\n\
! --shared --workers 2 q e=e n=n | SELECT x FROM e; SELECT * FROM e, n; SELECT COUNT(*) FROM e |  | 0 Done | x//x,x//\
    count/0/ | \n\
! --shared --tally q e=e | SELECT x FROM e |  | 0 Done | x/ | shared: built 0 hops 0/\n\
! --shared --demo 20000 --workers 8 |  |  | 0 Done | query,rows/q1,2000/q2,1000/q3,10800/ | \n\
! --shared --demo 1 |  |  | 0 Done | query,rows/q1,0/q2,1/q3,0/ | \n\
! --shared --cache 0 q n=n | SELECT x FROM n |  | 0 Done | x/1/2/3/ | \n\
! --shared --tally q n=n | SELECT x FROM n; SELECT x FROM n | note 3 | 6 Write | x/1/2/3//x/1/2/3/ | sha\n\
! --shared --tally q n=n | SELECT x FROM n; SELECT x FROM n | put 5 0 | 6 Write | x/1/2/3/ | write fault/\n\
! --shared --tally q n=n | SELECT x FROM n; SELECT x FROM n | put 9 1 | 6 Write | x/1/2/3//x/1/2/3 | write fault/\n\
! --shared --tally --demo 1 |  | put 3 0 | 6 Write | query,rows/q1,0/ | write fault/\n\
! --shared --tally q n=n | SELECT x FROM n; SELECT y FROM n |  | 3 Bind { statement: 2, fault: UnknownColumn { at: 24 \
    } } |  | statement 2: unknown column at byte 24/\n\
! --shared --lookup ord.cid q ord=ord | SELECT cid FROM ord |  | 2 Usage |  | usage: eddyql [OPTIONS] SCRIPT NAME=FIL\
    E.. or eddyql [OPTIONS] --demo ROWS/\n\
! --shared --cache 2 q n=n | SELECT x FROM n |  | 2 Usage |  | usage: eddyql [OPTIONS] SCRIPT NAME=FILE.. or eddyql [\
    OPTIONS] --demo ROWS/\n\
";
