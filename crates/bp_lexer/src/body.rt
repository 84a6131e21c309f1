ghost use Rattle.std.specs.Prelude.{◌≡◌, ◌+◌, ◌<◌, ◌≤◌, length, IfOk, IfErr, slice_index};
ghost use Rattle.bp_faults.specs.declared.limits.TheConstants.{LARGEST_FILE};
ghost use Rattle.bp_lexer.specs.Strings.{IsClosedAt, is_escape};
ghost use Rattle.bp_lexer.specs.Search.{KnowsBadEscape, IsBodyFlaw};

use crate::escape::escape_of;
use crate::flaw::Flaw;

fn is_escape(byte: u8) -> bool
    ensures { result ≡ is_escape byte }
{
    escape_of(char::from(byte)).is_some()
}

// The first bad escape, behind the pair at a place.
fn first_bad(rest: &[u8], n: usize, bad: Option<usize>) -> Option<usize>
    requires within { n + 1 < length rest.now }
    requires backslash { slice_index rest.now n ≡ 92 }
    requires before { KnowsBadEscape rest.now n bad }
    ensures { KnowsBadEscape rest.now (n + 2) result }
{
    match bad {
        Some(k) => Some(k),
        None => {
            if is_escape(rest[n + 1]) {
                None
            } else {
                Some(n)
            }
        }
    }
}

/// The length of a string's body, from behind the quote that opens it.
pub fn body_len(rest: &[u8]) -> Result<usize, Flaw>
    requires { length rest.now ≤ LARGEST_FILE }
    ensures found { IfOk result (IsClosedAt is_escape rest.now) }
    ensures flaw { IfErr result (IsBodyFlaw rest.now) }
{
    let mut n = 0;
    let mut bad = None;
    while n < rest.len() {
        match rest[n] {
            b'"' => {
                return match bad {
                    None => Ok(n),
                    Some(k) => Err(Flaw::BadEscape(k)),
                };
            }
            b'\n' => return Err(Flaw::OpenString),
            b'\\' => {
                if n + 1 == rest.len() || rest[n + 1] == b'\n' {
                    return Err(Flaw::OpenString);
                }
                bad = first_bad(rest, n, bad);
                n += 2;
            }
            _ => n += 1,
        }
    }
    Err(Flaw::OpenString)
}
