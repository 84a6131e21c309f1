ghost use Rattle.std.specs.Prelude.{◌≡◌};

use crate::lists::Lists;
use crate::made::Made;
use bp_faults::NodeId;
use crossbeam_deque::Worker;
use pass_core::Visit;
use ready_counters::Seat;

/// One worker's seat, its hints, what it made, and the lists that it uses again.
pub struct Task<V: Visit> {
    pub seat: Seat<V>,
    pub hints: Worker<NodeId>,
    pub made: Vec<Made<V::Out>>,
    pub lists: Lists<V::Out>,
    pub failed: bool,
}

impl<V: Visit> Drop for Task<V> {
    fn drop(self) {
        let Self {
            seat: _seat,
            hints: _hints,
            made: _made,
            lists: _lists,
            failed: _,
        } = self;
    }
}

impl<V: Visit> Task<V> {
    /// The seat, what was made, and whether memory ran out.
    pub fn into_parts(self) -> (Seat<V>, Vec<Made<V::Out>>, bool)
        ensures { result ≡ (self.seat, self.made, self.failed) }
    {
        let Self {
            seat,
            hints: _hints,
            made,
            lists: _lists,
            failed,
        } = self;
        (seat, made, failed)
    }
}
