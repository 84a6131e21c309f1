use crate::links::Outs;
use bp_ports::Gate;
use pass_core::{Plan, Visit};
use ready_counters::Board;
use std::alloc::Global;

/// A pass under way, as every worker reads it: its number, plan and visitor, the gate before each visit, the
/// board of plan and visitor, and the plan's edges by target and by source.
#[derive(Drop)]
pub struct Pass<'a, V: Visit, G: Gate> {
    pub alloc: Global,
    pub number: u32,
    pub plan: &'a Plan,
    pub visitor: &'a V,
    pub gate: &'a G,
    pub board: &'a Board<V>,
    pub starts: &'a [u32],
    pub outs: &'a Outs,
}
