/// The distribution that a plan gives.
#[derive(Clone, Copy, Debug, PartialEq, Eq)]
pub enum GivenDist {
    /// All rows on one segment.
    One,
    /// Each row on the segment that the hash of the numbered list says.
    Hashed(u32),
    /// Each row on any segment.
    Random,
    /// All rows on each segment.
    Copies,
}

/// The order that a plan gives.
#[derive(Clone, Copy, Debug, PartialEq, Eq)]
pub enum GivenOrder {
    /// The order of this number; 0 is the empty order.
    Listed(u32),
    /// The columns of an index, ascending: the table's place and the index's.
    Index(u32, u32),
}

/// What a plan gives.
#[derive(Clone, Copy, Debug, PartialEq, Eq)]
pub struct Given {
    pub dist: GivenDist,
    pub order: GivenOrder,
}
