ghost use Rattle.std.specs.Prelude.{◌≡◌, ◌≤◌, ℕ, []};
ghost use Rattle.ready_counters.specs.Views.{tickets_for, tickets_with};

use crate::rule::Slot;
use crate::view::View;
use pass_core::Visit;

/// What a thread takes its steps on a board with. It has no bytes.
pub struct Seat<V: Visit> {
    pub(crate) seat: atomic_table::Seat<Slot<V::Out>, View>,
    pub ghost free: { seat.me.1 ≡ [] },
    pub ghost live: { 1 ≤ seat.me.0.weight },
    pub ghost shut: { seat.me.0.opened ≡ [] },
    pub ghost differ: { (k : ℕ) → tickets_with k seat.me.0.tickets ≤ 1 },
    pub ghost single: { (n : ℕ) → tickets_for n seat.me.0.tickets ≤ 1 },
}

impl<V: Visit> Drop for Seat<V> {
    fn drop(self) {
        let Self { seat: _seat } = self;
    }
}

impl<V: Visit> Seat<V> {
    pub(crate) fn into_inner(self) -> atomic_table::Seat<Slot<V::Out>, View>
        ensures same { result ≡ self.seat }
        ensures free { result.me.1 ≡ [] }
        ensures shut { result.me.0.opened ≡ [] }
    {
        let Self { seat } = self;
        seat
    }
}
