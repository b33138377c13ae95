// A quotient of whole numbers as an f64, worked out in integers: the machine's rounding mode has no part in it.
ghost use Rattle.std.specs.Prelude.{◌≡◌, pos};
ghost use Prim.Native.Nat.{◌*◌, ◌^◌, ◌<◌, compare};
ghost use Rattle.std.specs.Float.{binary64};
ghost use Rattle.std.specs.Float.Ieee.{of_int, div, nearest};

use std::cmp::Ordering;

// 2^52, the leading one of an f64's 53 binary digits. Its bits have the exponent from this place on, and not the leading digit,
// which raises the exponent by 1 instead.
const LEADING_DIGIT: u64 = 4503599627370496;

// An f64's exponents count from that of its smallest value, 2^-1074.
const SMALLEST: u64 = 1074;

// The whole quotient or the next number, the nearer to the exact quotient; where both are as near, the even one.
fn round_half_even(quotient: u64, remainder: u64, divisor: u64) -> u64
    requires quotient_small { quotient < 2 ^ 53 }
    requires remainder_small { remainder < 2 ^ 32 }
    ensures { result ≡ nearest quotient (compare (remainder * 2) divisor) }
{
    match (remainder * 2).cmp(&divisor) {
        Ordering::Less => quotient,
        Ordering::Equal => quotient + quotient % 2,
        Ordering::Greater => quotient + 1,
    }
}

// The f64 nearest to a quotient, as the machine's division gives it in the default rounding mode. Each turn works out a
// binary digit, until there are 53: dividend times 2^shift is quotient times divisor plus remainder.
pub(crate) fn divide(dividend: u64, divisor: u64) -> f64
    requires dividend_small { dividend < 2 ^ 53 }
    requires divisor_positive { 0 < divisor }
    requires divisor_small { divisor < 2 ^ 32 }
    ensures { result ≡ div binary64 (of_int binary64 (pos dividend)) (of_int binary64 (pos divisor)) }
{
    if dividend == 0 {
        return 0.0;
    }
    let mut quotient = dividend / divisor;
    let mut remainder = dividend % divisor;
    let mut shift: u64 = 0;
    while quotient < LEADING_DIGIT {
        quotient = quotient * 2 + remainder * 2 / divisor;
        remainder = remainder * 2 % divisor;
        shift += 1;
    }
    let digits = round_half_even(quotient, remainder, divisor);
    f64::from_bits((SMALLEST - shift) * LEADING_DIGIT + digits)
}
