ghost use Rattle.std.specs.Prelude.{◌≡◌, IsTrue, Contains, ◌↔◌};

/// The calls of an object in memory, counted from 1, and which of them fail.
#[derive(Drop)]
pub struct Calls {
    pub failing: Vec<u32>,
    pub count: u32,
}

fn is_listed(calls: &[u32], call: u32) -> bool
    ensures { IsTrue result ↔ Contains calls.now call }
{
    calls.contains(&call)
}

impl Calls {
    ghost use Rattle.bp_ports.specs.Calls.{none_yet, one_later, FailsNext};

    pub fn new(failing: Vec<u32>) -> Calls
        ensures { result ≡ none_yet failing }
    {
        Calls { failing, count: 0 }
    }

    /// Counts a call: whether it is to fail.
    pub fn fails(&mut self) -> bool
        ensures counted { self.new ≡ one_later self.old }
        ensures exactly { IsTrue result ↔ FailsNext self.old }
    {
        self.count = self.count.saturating_add(1);
        is_listed(&self.failing, self.count)
    }
}
