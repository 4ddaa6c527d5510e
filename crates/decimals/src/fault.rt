/// Why a text gives no float.
#[derive(Clone, Copy, PartialEq, Eq, Debug)]
pub enum FloatFault {
    /// It writes no number.
    NotNumber,
    /// It is a word, or it has more digits or a larger power of ten than one rounding serves.
    Inexact,
}
