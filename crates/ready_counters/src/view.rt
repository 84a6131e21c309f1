use std::collections::LinkedList;

/// What a seat weighs and has done: nodes, and edges by their numbers in the plan. No value of it is made.
pub struct View {
    pub weight: u64,
    pub claimed: LinkedList<u32>,
    pub opened: LinkedList<u32>,
    pub filled: LinkedList<u32>,
    pub subtracted: LinkedList<u32>,
    pub fetched: LinkedList<u32>,
    pub tickets: LinkedList<(u32, u64)>,
}
