ghost use Rattle.decimals.specs.Decimal.{read_double};
ghost use Rattle.std.specs.Prelude.{◌≡◌};

use super::decimal::read_float;
use super::fault::FloatFault;

/// The float of a double's line: `inf`, `-inf` and `nan` are that float, and any other line is read as a text.
pub fn read_double(line: &[u8]) -> Result<f64, FloatFault>
    ensures { result ≡ read_double line.now }
{
    match line {
        b"inf" => Ok(f64::INFINITY),
        b"-inf" => Ok(f64::NEG_INFINITY),
        b"nan" => Ok(f64::NAN),
        _ => read_float(line),
    }
}
