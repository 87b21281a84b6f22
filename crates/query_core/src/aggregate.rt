use orca_base::Text;

/// What an aggregate computes.
#[derive(Clone, Copy)]
pub enum AggFunc {
    CountAll,
    Count,
    Sum,
    Min,
    Max,
}

/// An aggregate of a query. Its item number is the number of the query's items plus its place.
#[derive(Drop)]
pub struct Agg {
    pub func: AggFunc,
    /// The item that it goes over; none for `CountAll`.
    pub arg: Option<u32>,
    /// Its output name, where it has one.
    pub name: Option<Text>,
}
