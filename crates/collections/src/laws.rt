ghost use Rattle.collections.specs.Examples.{Examples};
ghost use Rattle.collections.specs.Theorems.{CutsAreWhole, MapsAreDistinct, SetsAreDistinct};

/// Holds what is proved of sets, maps and cuts; it computes nothing.
pub fn rows_agree() -> u8
    ensures sets { SetsAreDistinct }
    ensures maps { MapsAreDistinct }
    ensures cuts { CutsAreWhole }
{
    0
}

/// Holds the worked examples; it computes nothing.
pub fn examples_stand() -> u8
    ensures { Examples }
{
    0
}
