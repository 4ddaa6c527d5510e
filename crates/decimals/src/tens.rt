ghost use Rattle.std.specs.Prelude.{◌≡◌, ◌^◌, ◌≤◌, false};
ghost use Rattle.decimals.specs.Decimal.{rounded_once};
ghost use Rattle.std.specs.Float.Ieee.Exact.{HasValue};

use super::fault::FloatFault;

/// The powers of ten that are floats.
// kept: a table of a set length, as no more powers of ten are floats
static POWERS: [f64; 23] = [
    1e0, 1e1, 1e2, 1e3, 1e4, 1e5, 1e6, 1e7, 1e8, 1e9, 1e10, 1e11, 1e12, 1e13, 1e14, 1e15, 1e16,
    1e17, 1e18, 1e19, 1e20, 1e21, 1e22,
];

/// `digits` times ten to the `power`, with a minus where it is `negative`, rounded once. `Inexact` where `digits` are
/// above 2^53, up to which each number is a float, or the power of ten is no float.
pub fn round_once(negative: bool, digits: u64, power: i128) -> Result<f64, FloatFault>
    ensures { result ≡ rounded_once negative digits power }
{
    let size = power.unsigned_abs();
    if digits > 1 << 53 || size > 22 {
        return Err(FloatFault::Inexact);
    }
    let x = signed_float(negative, digits);
    let ten = power_of_ten(size as usize);
    Ok(if power < 0 { x / ten } else { x * ten })
}

/// The float of `digits`, with a minus where it is `negative`.
// kept: one function for this and for the integers' `with_sign` could only promise what the type's minus gives, and each caller
// would have to show what that is
fn signed_float(negative: bool, digits: u64) -> f64
    requires { digits ≤ 2 ^ 53 }
    ensures { HasValue result negative digits 1 }
{
    let x = digits as f64;
    if negative { -x } else { x }
}

/// Ten to the power `k`.
fn power_of_ten(k: usize) -> f64
    requires { k ≤ 22 }
    ensures { HasValue result false (10 ^ k) 1 }
{
    POWERS[k]
}
