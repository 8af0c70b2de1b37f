//! Arithmetic on integers of 32 bits (7.1.5.2).

ghost use Rattle.std.specs.Prelude.{◌≡◌, ◌<ℤ◌, pos};
ghost use Rattle.ftn_base.specs.Arithmetic as spec;

/// Why two integers have no result.
#[derive(Clone, Copy)]
pub enum ArithmeticFault {
    /// The result is no integer of 32 bits.
    Overflow,
    /// A divisor of 0, or 0 to a negative power.
    Zero,
}

/// `a + b`.
pub fn sum(a: i32, b: i32) -> Result<i32, ArithmeticFault>
    ensures { result ≡ spec.sum a b }
{
    a.checked_add(b).ok_or(ArithmeticFault::Overflow)
}

/// `a - b`.
pub fn difference(a: i32, b: i32) -> Result<i32, ArithmeticFault>
    ensures { result ≡ spec.difference a b }
{
    a.checked_sub(b).ok_or(ArithmeticFault::Overflow)
}

/// `a * b`.
pub fn product(a: i32, b: i32) -> Result<i32, ArithmeticFault>
    ensures { result ≡ spec.product a b }
{
    a.checked_mul(b).ok_or(ArithmeticFault::Overflow)
}

/// `-a`.
pub fn negative(a: i32) -> Result<i32, ArithmeticFault>
    ensures { result ≡ spec.negative a }
{
    a.checked_neg().ok_or(ArithmeticFault::Overflow)
}

/// `a / b`, truncated toward zero.
pub fn quotient(a: i32, b: i32) -> Result<i32, ArithmeticFault>
    ensures { result ≡ spec.quotient a b }
{
    if b == 0 {
        return Err(ArithmeticFault::Zero);
    }
    a.checked_div(b).ok_or(ArithmeticFault::Overflow)
}

/// `base ** exponent`. A negative exponent gives 1 divided by the power, truncated toward zero; `0 ** 0` is 1. A power
/// outside 32 bits isn't built.
pub fn power(base: i32, exponent: i32) -> Result<i32, ArithmeticFault>
    ensures { result ≡ spec.power base exponent }
{
    if exponent < 0 {
        return inverse_power(base, exponent);
    }
    base.checked_pow(exponent as u32)
        .ok_or(ArithmeticFault::Overflow)
}

/// `base ** exponent`, where the exponent is negative.
#[tactic(auto, using(crate::proofs::PowerLaws::of_one, crate::proofs::PowerLaws::of_minus_one_even, crate::proofs::PowerLaws::of_minus_one_odd, crate::proofs::PowerLaws::of_great))]
fn inverse_power(base: i32, exponent: i32) -> Result<i32, ArithmeticFault>
    requires { exponent <ℤ pos 0 }
    ensures { result ≡ spec.power base exponent }
{
    match base {
        0 => Err(ArithmeticFault::Zero),
        1 => Ok(1),
        -1 => Ok(if exponent % 2 == 0 { 1 } else { -1 }),
        _ => Ok(0),
    }
}
