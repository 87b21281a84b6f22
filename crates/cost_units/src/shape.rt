/// How many segments have a share of the rows.
#[derive(Clone, Copy, PartialEq, Eq)]
pub enum Class {
    /// Each segment has a part of the rows.
    Spread,
    /// One segment has all rows.
    One,
    /// Each segment has all rows.
    Copies,
}

/// What a node does, with the numbers of rows that its cost depends on. They are shares, but for
/// Gather, GatherMerge and Broadcast, which go over all rows of the group.
#[derive(Clone, Copy, PartialEq, Eq)]
pub enum CostShape {
    /// The table's rows.
    Scan(u64),
    /// The table's rows.
    IndexScan(u64),
    /// The rows that come out.
    IndexSeek(u64),
    /// The rows that go in.
    Filter(u64),
    /// Left, right and out.
    HashJoin(u64, u64, u64),
    /// Left, right and out.
    MergeJoin(u64, u64, u64),
    /// Left and right.
    LoopJoin(u64, u64),
    /// In and out.
    HashAgg(u64, u64),
    /// The rows that go in.
    StreamAgg(u64),
    /// The rows that go in.
    PartialAgg(u64),
    Sort(u64),
    Gather(u64),
    GatherMerge(u64),
    Redistribute(u64),
    Broadcast(u64),
}
