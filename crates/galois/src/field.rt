ghost use Rattle.std.specs.Prelude.{◌≡◌, ◌+◌, ◌<◌, if◌then◌else◌, Some, None, nat_eq};
ghost use Rattle.galois.specs.Galois.{gmul, gpow, ginv, alpha};

use crate::tables::{EXP, LOG};

/// The power of 2 at an exponent that the table has.
fn listed_power(i: usize) -> u8
    requires { i < 510 }
    ensures { result ≡ alpha i }
{
    EXP[i]
}

/// The power of 2 at the exponent `e`.
pub fn exp(e: usize) -> u8
    ensures { result ≡ alpha e }
{
    listed_power(e % 255)
}

/// The exponent at which 2 has the power `a`.
fn log(a: u8) -> usize
    requires { 0 < a }
    ensures below { result < 255 }
    ensures power { alpha result ≡ a }
{
    LOG[a as usize] as usize
}

/// The product of two elements.
pub fn multiply(a: u8, b: u8) -> u8
    ensures { result ≡ gmul a b }
{
    if a == 0 || b == 0 {
        0
    } else {
        listed_power(log(a) + log(b))
    }
}

/// The inverse of an element, and 0 for 0.
pub fn reciprocal(a: u8) -> u8
    ensures { result ≡ ginv a }
{
    if a == 0 {
        0
    } else {
        listed_power(255 - log(a))
    }
}

/// The inverse of an element; 0 has none.
pub fn inverse(a: u8) -> Option<u8>
    ensures { result ≡ (if nat_eq a 0 then None else Some (ginv a)) }
{
    if a == 0 { None } else { Some(reciprocal(a)) }
}

/// The element `x` to the power `e`; the power 0 of every element is 1.
pub fn power(x: u8, e: usize) -> u8
    ensures { result ≡ gpow x e }
{
    if e == 0 {
        1
    } else if x == 0 {
        0
    } else {
        listed_power(log(x) * (e % 255) % 255)
    }
}
