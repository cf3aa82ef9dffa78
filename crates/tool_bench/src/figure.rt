//! The figure that is printed.

ghost use Rattle.std.specs.Prelude.{◌≡◌, ◌+◌, ◌*◌, ◌/◌, ◌<◌, ◌≤◌, ◌↔◌, [], IsNone, IfSome, All, Contains};

use std::fmt;

/// The result of timing an operation.
#[derive(Clone, Copy, Debug, PartialEq, Eq)]
pub enum Figure {
    /// The operation isn't known.
    Unknown,
    /// Nothing was timed.
    Untimed,
    /// The time of a call, in tenths of a nanosecond.
    Tenths(u128),
}

impl fmt::Display for Figure {
    ghost use Rattle.std.specs.Prelude.{Some};
    ghost use Rattle.tool_bench.specs.Figure.{figure_text};

    ghost output = { λ figure. Some (figure_text figure) };

    fn fmt<W: fmt::Write>(&self, f: &mut fmt::Formatter<W>) -> fmt::Result {
        match self {
            Figure::Unknown => f.write_str("-"),
            Figure::Untimed => f.write_str("0.0"),
            Figure::Tenths(tenths) => {
                let (whole, rest) = (tenths / 10, tenths % 10);
                write!(f, "{whole}.{rest}")
            }
        }
    }
}

/// Returns the least of the times, or `None` if there is none.
pub fn least(times: &[u64]) -> Option<u64>
    ensures empty { IsNone result ↔ (times.now ≡ []) }
    ensures taken { IfSome result (Contains times.now) }
    ensures least { IfSome result (λ time. All (λ other. time ≤ other) times.now) }
{
    times.iter().copied().min()
}

/// Returns the time of one call in tenths of a nanosecond, rounded to the nearest.
pub fn tenths_a_call(nanos: u64, calls: usize) -> u128
    requires { 0 < calls }
    ensures { result ≡ (10 * nanos + calls / 2) / calls }
{
    let (nanos, calls) = (nanos as u128, calls as u128);
    (10 * nanos + calls / 2) / calls
}
