//! What is found and printed for some of the queries.

/// The word of the root goal of a query that reads a table, and no more: kind 5, key 0, request 0.
pub const SCAN_ROOT: u64 = 13 << 60;

/// The memo of the join of two tables without indexes.
pub const JOIN_MEMO: &str = "memo groups=3 members=13
group Get(T1) rows=1000
  Get(T1)
  Scan(T1)
group Get(T2) rows=1000
  Get(T2)
  Scan(T2)
group Join(T1, T2) rows=1000
  NJoin(T1, T2)
  Join(T1 | T2)
  Join(T2 | T1)
  HashJoin(T1 | T2)
  HashJoin(T2 | T1)
  MergeJoin(T1 | T2)
  MergeJoin(T2 | T1)
  LoopJoin(T1 | T2)
  LoopJoin(T2 | T1)
";

/// The trace of a query that reads a table without indexes, and no more.
pub const SCAN_TRACE: &str = "trace goals=8 exp=1 expe=1 xf=1 imp=1 impe=1 opt=2 opte=1
Exp Get(t)
  ExpE Get(t)
ExpE Get(t)
Xf GetToScan Get(t)
Imp Get(t)
  Exp Get(t)
  ImpE Get(t)
ImpE Get(t)
  Xf GetToScan Get(t)
Opt Get(t) [One]
  Imp Get(t)
  Opt Get(t) [Spread]
Opt Get(t) [Spread]
  Imp Get(t)
  OptE Scan(t) [Spread]
OptE Scan(t) [Spread]
";

/// The same goals, where one worker finished them all.
pub const SCAN_BY_WORKER: &str = "by-worker
0 Exp Get(t)
0 ExpE Get(t)
0 Xf GetToScan Get(t)
0 Imp Get(t)
0 ImpE Get(t)
0 Opt Get(t) [One]
0 Opt Get(t) [Spread]
0 OptE Scan(t) [Spread]
";
