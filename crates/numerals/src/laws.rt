ghost use Rattle.numerals.specs.Theorems.{BigNumbersAgree, DoublesAgree, IntegersAgree, IntegersHaveOneLine};

/// The tests take exactly the lines that the rules describe, and an integer has one line.
pub fn lines_agree() -> u8
    ensures integers { IntegersAgree }
    ensures doubles { DoublesAgree }
    ensures big { BigNumbersAgree }
    ensures line { IntegersHaveOneLine }
{
    0
}
