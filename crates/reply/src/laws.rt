ghost use Rattle.reply.specs.Theorems.{FindsEach, OnlyOne, PartsAreViews, ViewsHold};

/// Holds what is proved of the places of a view's parts; it computes nothing.
pub fn places_agree() -> u8
    ensures views { PartsAreViews }
    ensures one { OnlyOne }
    ensures each { FindsEach }
    ensures held { ViewsHold }
{
    0
}
