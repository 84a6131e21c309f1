ghost use Rattle.std.specs.Prelude.{◌≡◌, ◌≤◌, ◌+◌};
ghost use Rattle.bp_pipeline.specs.Mutators.{mutator_count, passes, passes_of};

/// How many mutators there are.
pub const BUILT: u32 = 11;

/// How many passes the first k mutators have.
pub fn passes_of(k: u32) -> u32
    requires { k ≤ mutator_count }
    ensures count { result ≡ passes_of k }
    ensures near { (k ≤ result) × (result ≤ k + 1) }
    ensures built { result ≤ passes }
{
    if k < 9 { k } else { k + 1 }
}
