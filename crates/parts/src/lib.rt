// A matrix of which parts are lent.
#![tactic(auto)]

ghost use Rattle.std.specs.Prelude.{◌≡◌};
ghost use Rattle.parts.specs.Parts.{found_in};

#[tactic(auto, unfolding(crate::specs::Parts::found_in))]
// A part that is lent, or one's own where that one is empty.
pub fn found_in<'a>(own: &'a [u64], lent: &'a [u64]) -> &'a [u64]
    ensures { result.now ≡ found_in own.now lent.now }
{
    if lent.len() == 0 {
        return own;
    }
    lent
}
