//! Numbers.

ghost use Rattle.std.specs.Prelude.{◌≡◌, ◌≤◌, IfSome};
ghost use Rattle.tool_spelled.specs.Number.{number};

/// Returns the number that the digits write in this radix, or `None` if a character is no digit or
/// the number is too large.
pub(crate) fn number(radix: u32, digits: &[u8]) -> Option<u64>
    requires { (2 ≤ radix) × (radix ≤ 36) }
    ensures { IfSome result (λ n. number radix 0 digits.now ≡ Some n) }
{
    let mut number = 0u64;
    let mut left = digits;
    while let Some((digit, rest)) = left.split_first() {
        let value = char::from(*digit).to_digit(radix)?;
        number = number
            .checked_mul(u64::from(radix))?
            .checked_add(u64::from(value))?;
        left = rest;
    }
    Some(number)
}
