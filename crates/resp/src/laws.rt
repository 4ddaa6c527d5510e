ghost use Rattle.resp.specs.Examples.{Examples};
ghost use Rattle.resp.specs.Theorems.{Lasts, OneFront, OneSplit, ReadsAFront, ReadsAll, ReadsOnly, Stays};

/// Holds what is proved of reading and the grammar; it computes nothing.
pub fn reading_agrees() -> u8
    ensures only { ReadsOnly }
    ensures all { ReadsAll }
    ensures front { ReadsAFront }
    ensures one { OneFront }
    ensures split { OneSplit }
    ensures stays { Stays }
    ensures lasts { Lasts }
{
    0
}

/// Holds the worked examples; it computes nothing.
pub fn examples_stand() -> u8
    ensures { Examples }
{
    0
}
