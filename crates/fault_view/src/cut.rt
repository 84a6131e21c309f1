ghost use Rattle.std.specs.Prelude.{MatchOption};
ghost use Rattle.fault_view.specs.Lines.{IsNoFaultLine};
ghost use Rattle.fault_view.specs.Inside.{IsFirstNumber, HasNoNumber, CutsLine};

use crate::number::number_of;

/// The parts of a fault line.
#[derive(Clone, Copy, Debug)]
pub struct Parts<'a> {
    pub path: &'a str,
    pub line: u32,
    pub col: u32,
    pub number: u32,
    pub what: &'a str,
}

// The number before the first colon, and what is behind it.
fn first_number(text: &str) -> Option<(u32, &str)>
    ensures { MatchOption result (HasNoNumber text.now) (λ r. IsFirstNumber text.now r.0 r.1.now) }
{
    let (digits, rest) = text.split_once(':')?;
    let number = number_of(digits)?;
    Some((number, rest))
}

/// The parts of a text, where it is a fault line.
pub fn cut(text: &str) -> Option<Parts<'_>>
    ensures { MatchOption result (IsNoFaultLine text.now) (CutsLine text.now) }
{
    let (path, behind_path) = text.split_once(':')?;
    let (line, behind_line) = first_number(behind_path)?;
    let (col, behind_col) = first_number(behind_line)?;
    let behind_error = behind_col.strip_prefix(" error ")?;
    let (number, behind_number) = first_number(behind_error)?;
    let ended = behind_number.strip_prefix(' ')?;
    let what = ended.strip_suffix('\n')?;
    Some(Parts {
        path,
        line,
        col,
        number,
        what,
    })
}
