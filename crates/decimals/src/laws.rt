ghost use Rattle.decimals.specs.Rounding.{RoundsOnce};
ghost use Rattle.decimals.specs.Theorems.{DecimalsAgree, RangesAgree, WholeFloatsAgree, WholesAgree, WordsAgree};

/// The functions on text and on floats tell exactly what the rules describe.
pub fn texts_agree() -> u8
    ensures wholes { WholesAgree }
    ensures ranges { RangesAgree }
    ensures decimals { DecimalsAgree }
    ensures words { WordsAgree }
    ensures floats { WholeFloatsAgree }
{
    0
}

/// A float that is rounded once is the nearest to the exact value, at a tie the even one.
pub fn rounding_stands() -> u8
    ensures { RoundsOnce }
{
    0
}
