ghost use Rattle.std.specs.Prelude.{◌≡◌, ℕ, ◌≤◌, length, MatchOption};
ghost use Rattle.bp_faults.specs.declared.limits.TheConstants.{LARGEST_FILE};
ghost use Rattle.bp_lexer.specs.Forms.{IsEnd, IsFirstEnd};

/// Where the first `*/` stands.
pub fn comment_end(rest: &[u8]) -> Option<usize>
    requires { length rest.now ≤ LARGEST_FILE }
    ensures { MatchOption result ((n : ℕ) → IsEnd rest.now n → ⊥) (IsFirstEnd rest.now) }
{
    for n in 1..rest.len() {
        if rest[n - 1] == b'*' && rest[n] == b'/' {
            return Some(n - 1);
        }
    }
    None
}
