use std::mem;

/// Leaves what nobody needs any more to the end of the process, which comes soon and frees all at once. To free the
/// texts and lists of a large tree one by one takes about a tenth of all the time. This is the one place that does so:
/// whoever calls this crate many times in one process grows.
pub fn leave<T: Drop>(rest: T) {
    mem::forget(rest);
}
