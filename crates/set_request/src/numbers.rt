// Numbers with and without a sign, and the digits of equal decimals.
ghost use Rattle.std.specs.Prelude.{◌≡◌};
ghost use Rattle.std.specs.Option.{option_and_then};
ghost use Rattle.value_core.specs.Decimals.{with_sign};
ghost use Rattle.set_request.specs.Numbers.{natural, is_negative, magnitude, without_zeros, rescaled_digits};

use value_core::{with_sign, with_zeros};

/// The number, where it is not negative.
pub(crate) fn natural(number: i64) -> Option<u64>
    ensures { result ≡ natural number }
{
    if number < 0 {
        return None;
    }
    Some(number as u64)
}

fn is_negative(number: i64) -> bool
    ensures { result ≡ is_negative number }
{
    number < 0
}

/// The number without its sign.
fn magnitude(number: i64) -> u64
    ensures { result ≡ magnitude number }
{
    if number < 0 {
        -(number + 1) as u64 + 1
    } else {
        number as u64
    }
}

/// The number without so many zeros at its end, where it has them.
fn without_zeros(zeros: u8, number: u64) -> Option<u64>
    ensures { result ≡ without_zeros zeros number }
{
    if zeros == 0 {
        return Some(number);
    }
    if number % 10 != 0 {
        return None;
    }
    without_zeros(zeros - 1, number / 10)
}

/// The number with `to` places behind the point where it had `from`, if 64 bits hold it with its sign.
#[tactic(auto, using(crate::proofs::Powers::not_held))]
fn rescaled(negative: bool, number: u64, from: u8, to: u8) -> Option<i64>
    ensures { result ≡ option_and_then (with_sign negative) (rescaled_digits number from to) }
{
    if from <= to {
        let longer = with_zeros(number, usize::from(to - from))?;
        with_sign(negative, longer)
    } else {
        let shorter = without_zeros(from - to, number)?;
        with_sign(negative, shorter)
    }
}

/// The digits of the same decimal with `to` places behind the point where it had `from`, without rounding.
pub(crate) fn digits_with(digits: i64, from: u8, to: u8) -> Option<i64>
    ensures { result ≡ option_and_then (with_sign (is_negative digits))
        (rescaled_digits (magnitude digits) from to) }
{
    rescaled(is_negative(digits), magnitude(digits), from, to)
}
