// How often each depth came, counted as far as the number goes.
ghost use Rattle.run.specs.Referred.{depths_then};
ghost use Rattle.std.specs.Prelude.{◌≡◌};

use kept::DEPTHS;

// The depth came once more.
#[tactic(auto, unfolding(crate::specs::Referred::depths_then))]
pub(crate) fn count_depth(depths: &mut [u32; DEPTHS], d: usize)
    ensures { depths.new ≡ depths_then d depths.old }
{
    if d < DEPTHS {
        depths[d] = depths[d].saturating_add(1);
    }
}
