use std::collections::LinkedList;

/// What a pass knows: its parts of the right to know the whole, how many numbers it pushed, and which it took, in
/// order. No value of it is made.
pub struct PassView {
    pub parts: u64,
    pub pushed: u64,
    pub taken: LinkedList<u32>,
}
