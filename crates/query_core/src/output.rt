use orca_base::Text;

/// A place of the select list.
#[derive(Drop)]
pub struct OutItem {
    /// The number of an item, or of an aggregate.
    pub item: u32,
    /// The output name, where one is given.
    pub name: Option<Text>,
}

/// An element of a sort order.
#[derive(Clone, Copy, PartialEq, Eq)]
pub struct OrderKey {
    /// The number of an item, or of an aggregate.
    pub item: u32,
    pub desc: bool,
}
