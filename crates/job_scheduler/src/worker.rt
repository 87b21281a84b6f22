use goal_board::Seat;
use place_hints::PlaceHints;

/// One who makes turns: a seat at the board, and hints where a goal may be ready.
#[derive(Drop)]
pub struct Worker<R> {
    pub(crate) seat: Seat<R>,
    pub(crate) hints: PlaceHints,
    // The place at which its next scan begins.
    pub(crate) next: u32,
    // Below 64.
    pub(crate) number: u32,
}
