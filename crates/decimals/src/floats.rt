ghost use Rattle.std.specs.Prelude.{◌≡◌, ◌^◌, ◌<◌, pos, if◌then◌else◌, MatchOption, int_lt, unsigned_abs};
ghost use Rattle.decimals.specs.Floats.{exact_float, natural_float, whole_float_capped};
ghost use Rattle.decimals.specs.Whole.{some_signed};
ghost use Rattle.std.specs.Float.Ieee.{neg};
ghost use Rattle.std.specs.Float.Ieee.Exact.{HasValue};

use super::whole::with_sign;
use std::num::saturating_f64_to_u64;

/// The float that `z` is. `None` where its magnitude is above 2^53, up to which each integer is a float.
pub fn exact_float(z: i64) -> Option<f64>
    ensures same { result ≡ exact_float z }
    ensures value { MatchOption result (2 ^ 53 < unsigned_abs z) (λ x. HasValue x (int_lt z (pos 0)) (unsigned_abs z) 1) }
{
    (z.unsigned_abs() <= 1 << 53).then(|| z as f64)
}

/// The whole number that `x` is; `-0.0` is 0. `None` where `x` is none, or its magnitude is 2^64 or more.
pub fn whole_of(x: f64) -> Option<i128>
    ensures { result ≡ whole_float_capped x }
{
    let negative = is_below_zero(x);
    natural_of(if negative { -x } else { x }).map(|n| with_sign(negative, n))
}

/// Whether `x` is below 0: then it is the whole number that `-x` is, with a minus.
fn is_below_zero(x: f64) -> bool
    ensures { whole_float_capped x ≡ some_signed result (natural_float (if result then neg x else x)) }
{
    x < 0.0
}

/// The number that `x` is. `None` where it is not whole, below 0, or 2^64 or more.
fn natural_of(x: f64) -> Option<u64>
    ensures { result ≡ natural_float x }
{
    let n = saturating_f64_to_u64(x);
    if x < 9007199254740992.0 {
        (n as f64 == x).then_some(n)
    } else {
        // from 2^53 on each float is whole
        (x < 18446744073709551616.0).then_some(n)
    }
}
