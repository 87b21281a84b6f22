/// Where the plan's root has its rows.
#[derive(Clone, Copy, Debug, PartialEq, Eq)]
pub enum RootDist {
    One,
    Spread,
}

/// What the caller chose for a query.
#[derive(Clone, Copy, Debug, PartialEq, Eq)]
pub struct Options {
    pub root: RootDist,
    /// The rules that are switched off: the bit of a rule's number is set.
    pub off: u32,
}
