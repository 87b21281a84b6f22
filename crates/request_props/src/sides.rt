/// A column that an equality compares.
#[derive(Clone, Copy, Debug, PartialEq, Eq)]
pub struct Side {
    pub column: u32,
    /// The number of the hashed list of this column; how many lists there are, where it has none.
    pub list: u32,
    /// The number of the order of this column, ascending; one more than there are, where it has
    /// none.
    pub order: u32,
}

/// Both sides of an equality of two columns.
#[derive(Clone, Copy)]
pub struct Equality {
    pub left: Side,
    pub right: Side,
}
