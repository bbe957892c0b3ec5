//! Runs over remotes. What is expected was worked out by hand.

// Answers, by one worker and by four: of needed keys, a literal, a chain of two remotes, one that goes back to the
// first in a third round, a remote under two aliases, a shaped statement, and two statements. Where a load would fail,
// the run makes one less: each file is looked for once a statement.
pub const REMOTE: &str = "\
--remote visit.who=v/ cust | SELECT name, day FROM cust, visit WHERE id = who |  | 0 Done | name,day/Ada,4/Ada,9/,2\
    / | \n\
--workers 4 --remote visit.who=v/ cust | SELECT name, day FROM cust, visit WHERE id = who |  | 0 Done | name,day/Ada\
    ,4/Ada,9/,2/ | \n\
--remote visit.who=v/ cust | SELECT name, day FROM cust, visit WHERE id = who | load 7 | 0 Done | name,day/Ada,4/Ada\
    ,9/,2/ | \n\
--remote visit.who=v/ cust | SELECT name, day FROM cust, visit WHERE id = who AND id > 1 | load 6 | 0 Done | name,da\
    y/,2/ | \n\
--workers 4 --remote visit.who=v/ cust | SELECT name, day FROM cust, visit WHERE id = who AND id > 1 | load 6 | 0 Do\
    ne | name,day/,2/ | \n\
--remote visit.who=v/ cust | SELECT name, day FROM cust, visit WHERE who = 1 AND name = 'Bob' | load 5 | 0 Done | na\
    me,day/Bob,4/Bob,9/ | \n\
--workers 4 --remote visit.who=v/ cust | SELECT name, day FROM cust, visit WHERE who = 1 AND name = 'Bob' | load 5 \
    | 0 Done | name,day/Bob,4/Bob,9/ | \n\
--remote visit.who=v/,next.day=d/ cust | SELECT name, visit.day, to FROM cust, visit, next WHERE id = who AND visit.\
    day = next.day |  | 0 Done | name,day,to/Ada,4,7/,2,8/ | \n\
--workers 4 --remote visit.who=v/,next.day=d/ cust | SELECT name, visit.day, to FROM cust, visit, next WHERE id = wh\
    o AND visit.day = next.day |  | 0 Done | name,day,to/Ada,4,7/,2,8/ | \n\
--remote visit.who=v/,next.day=d/ cust | SELECT name, a.day, to, b.day AS again FROM cust, visit a, next n, visit b \
    WHERE id = a.who AND a.day = n.day AND to = b.who | load 13 | 0 Done | name,day,to,again/Ada,4,7,4/ | \n\
--workers 4 --remote visit.who=v/,next.day=d/ cust | SELECT name, a.day, to, b.day AS again FROM cust, visit a, nex\
    t n, visit b WHERE id = a.who AND a.day = n.day AND to = b.who | load 13 | 0 Done | name,day,to,again/Ada,4,7,4\
    / | \n\
--remote visit.who=v/ cust | SELECT name, a.day, b.day AS again FROM cust, visit a, visit b WHERE id = a.who AND id \
    = b.who AND a.day < b.day |  | 0 Done | name,day,again/Ada,4,9/ | \n\
--workers 4 --remote visit.who=v/ cust | SELECT name, a.day, b.day AS again FROM cust, visit a, visit b WHERE id = a\
    .who AND id = b.who AND a.day < b.day |  | 0 Done | name,day,again/Ada,4,9/ | \n\
--remote visit.who=v/ cust | SELECT name, COUNT(*) AS k FROM cust, visit WHERE id = who GROUP BY name ORDER BY k |  \
    | 0 Done | name,k/,1/Ada,2/ | \n\
--workers 4 --remote visit.who=v/ cust | SELECT name, COUNT(*) AS k FROM cust, visit WHERE id = who GROUP BY name OR\
    DER BY k |  | 0 Done | name,k/,1/Ada,2/ | \n\
--remote visit.who=v/ cust | SELECT name, day FROM cust, visit WHERE id = who AND id = 1; SELECT name, day FROM cust\
    , visit WHERE id = who AND id > 1 |  | 0 Done | name,day/Ada,4/Ada,9//name,day/,2/ | \n\
--workers 4 --remote visit.who=v/ cust | SELECT name, day FROM cust, visit WHERE id = who AND id = 1; SELECT name, d\
    ay FROM cust, visit WHERE id = who AND id > 1 |  | 0 Done | name,day/Ada,4/Ada,9//name,day/,2/ | \n\
! --tally --remote visit.who=v/ q cust=cust | SELECT name, day FROM cust, visit WHERE id = who |  | 0 Done | name,da\
    y/Ada,4/Ada,9/,2/ | query 1: built 3,3 hops 3 looked 3/\n\
! --tally --workers 4 --remote visit.who=v/ q cust=cust | SELECT name, day FROM cust, visit WHERE id = who |  | 0 Do\
    ne | name,day/Ada,4/Ada,9/,2/ | query 1: built 3,3 hops 3 looked 3/\n\
";

// Refusals: of a key's file that can't be read, in the order of the rounds; of headings; of keys' files with another
// key, a column too few, or a record too short. The answers of the statements before a refused one are written.
pub const REFUSED_REMOTE: &str = "\
--remote visit.who=v/ cust | SELECT name, day FROM cust, visit WHERE id = who | load 5 | 5 Read { file: Key(RemoteKe\
    y { remote: 0, key: 2 }) } |  | read fault: remote visit key 2/\n\
--workers 4 --remote visit.who=v/ cust | SELECT name, day FROM cust, visit WHERE id = who | load 6 | 5 Read { file: \
    Key(RemoteKey { remote: 0, key: 3 }) } |  | read fault: remote visit key 3/\n\
--remote visit.who=v/,next.day=d/ cust | SELECT name, a.day, to, b.day AS again FROM cust, visit a, next n, visit b \
    WHERE id = a.who AND a.day = n.day AND to = b.who | load 8 | 5 Read { file: Key(RemoteKey { remote: 1, key: 2 }\
    ) } |  | read fault: remote next key 2/\n\
--remote visit.who=v/,next.day=d/ cust | SELECT name, a.day, to, b.day AS again FROM cust, visit a, next n, visit b \
    WHERE id = a.who AND a.day = n.day AND to = b.who | load 10 | 5 Read { file: Key(RemoteKey { remote: 1, key: 9 }\
    ) } |  | read fault: remote next key 9/\n\
--remote visit.who=v/,next.day=d/ cust | SELECT name, a.day, to, b.day AS again FROM cust, visit a, next n, visit b \
    WHERE id = a.who AND a.day = n.day AND to = b.who | load 11 | 5 Read { file: Key(RemoteKey { remote: 0, key: 7 }\
    ) } |  | read fault: remote visit key 7/\n\
--remote visit.who=v/,next.day=d/ cust | SELECT name, a.day, to, b.day AS again FROM cust, visit a, next n, visit b \
    WHERE id = a.who AND a.day = n.day AND to = b.who | load 12 | 5 Read { file: Key(RemoteKey { remote: 0, key: 8 }\
    ) } |  | read fault: remote visit key 8/\n\
--remote visit.who=v/ cust | SELECT day FROM visit WHERE who = 1 |  | 3 Bind { statement: 1, fault: Unreachable { al\
    ias: 0 } } |  | statement 1: alias 1 is unreachable/\n\
--remote visit.who=absent/ cust | SELECT name, day FROM cust, visit WHERE id = who |  | 5 NotFound { file: Heading(0\
    ) } |  | not found: heading of visit/\n\
--remote visit.who=empty/ cust | SELECT name, day FROM cust, visit WHERE id = who |  | 4 BadHeading { remote: 0 } \
    |  | remote visit: bad heading/\n\
--remote visit.who=text/ cust | SELECT name FROM cust |  | 4 BadHeading { remote: 0 } |  | remote visit: bad heading/\n\
--remote visit.who=o/ cust | SELECT name, day FROM cust, visit WHERE id = who |  | 4 BadKey { at: RemoteKey { remote\
    : 0, key: 1 }, why: OtherKey { rec: 1 } } |  | remote visit key 1: bad file/\n\
--workers 4 --remote visit.who=o/ cust | SELECT name, day FROM cust, visit WHERE id = who |  | 4 BadKey { at: Remote\
    Key { remote: 0, key: 1 }, why: OtherKey { rec: 1 } } |  | remote visit key 1: bad file/\n\
--remote visit.who=few/ cust | SELECT name, day FROM cust, visit WHERE id = who |  | 4 BadKey { at: RemoteKey { remo\
    te: 0, key: 1 }, why: Columns } |  | remote visit key 1: bad file/\n\
--remote visit.who=uneven/ cust | SELECT name, day FROM cust, visit WHERE id = who |  | 4 BadKey { at: RemoteKey { r\
    emote: 0, key: 1 }, why: Table(Unequal { rec: 2 }) } |  | remote visit key 1: bad file/\n\
--remote visit.who=o/ n cust | SELECT x FROM n; SELECT name FROM cust, visit WHERE id = who; SELECT x FROM n |  | 4 \
    BadKey { at: RemoteKey { remote: 0, key: 1 }, why: OtherKey { rec: 1 } } | x/1/2/3/ | remote visit key 1: bad fi\
    le/\n\
--workers 4 --remote visit.who=o/ n cust | SELECT x FROM n; SELECT name FROM cust, visit WHERE id = who; SELECT x FR\
    OM n |  | 4 BadKey { at: RemoteKey { remote: 0, key: 1 }, why: OtherKey { rec: 1 } } | x/1/2/3/ | remote visit k\
    ey 1: bad file/\n\
--remote visit.who=v/ n cust | SELECT x FROM n; SELECT name, day FROM cust, visit WHERE id = who | load 6 | 5 Read \
    { file: Key(RemoteKey { remote: 0, key: 2 }) } | x/1/2/3/ | read fault: remote visit key 2/\n\
! --tally --remote visit.who=o/ q n=n cust=cust | SELECT x FROM n; SELECT name, day FROM cust, visit WHERE id = who \
    |  | 4 BadKey { at: RemoteKey { remote: 0, key: 1 }, why: OtherKey { rec: 1 } } | x/1/2/3/ | query 1: built 3 ho\
    ps 2 looked 0/remote visit key 1: bad file/\n\
! --shared --remote visit.who=v/ q cust=cust | SELECT name, day FROM cust, visit WHERE id = who |  | 2 Usage |  | us\
    age: eddyql [OPTIONS] SCRIPT NAME=FILE.. or eddyql [OPTIONS] --demo ROWS/\n\
! --remote cust.who=v/ q cust=cust | SELECT name, day FROM cust, visit WHERE id = who |  | 2 Usage |  | usage: eddyq\
    l [OPTIONS] SCRIPT NAME=FILE.. or eddyql [OPTIONS] --demo ROWS/\n\
";

// The files of remotes. Of `v/` there is none for key 2 or 8, and of `d/` none for day 9.
pub const REMOTE_FILES: &str = "\
v/heading.csv | who:int,day:int/\n\
v/1.csv | who:int,day:int/1,4/1,9/\n\
v/3.csv | who:int,day:int/3,2/\n\
v/7.csv | who:int,day:int/7,4/\n\
o/heading.csv | who:int,day:int/\n\
o/1.csv | who:int,day:int/2,4/1,9/\n\
few/heading.csv | who:int,day:int/\n\
few/1.csv | who:int/1/\n\
uneven/heading.csv | who:int,day:int/\n\
uneven/1.csv | who:int,day:int/1,4/1/\n\
d/heading.csv | day:int,to:int/\n\
d/2.csv | day:int,to:int/2,8/\n\
d/4.csv | day:int,to:int/4,7/\n\
w/heading.csv | day:int,who:int/\n\
full/heading.csv | who:int/1/\n\
text/heading.csv | who:text/\n\
cents/heading.csv | who:dec0/\n\
empty/heading.csv | \n\
twice/heading.csv | who:int,WHO:int/\n\
";
