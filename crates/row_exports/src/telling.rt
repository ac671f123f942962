// Answers told in numbers: one that is handed back and one that is written into lent memory.
ghost use Rattle.std.specs.Prelude.{◌≡◌};
ghost use Rattle.rules.specs.Lists.{one};
ghost use Rattle.rules.specs.Told.{told, told_of};
ghost use Rattle.row_exports.specs.Told.{chosen_of};

use rules::{Frame, Refusal, tell};

// A reply: 0 and the slots examined, or the refusal.
pub(crate) fn tell_reply(reply: Result<u8, Refusal>, value: &mut usize) -> u32
    ensures { told result value.new ≡ told_of reply }
{
    tell(reply.map(|examined| usize::from(examined)), value)
}

// A victim: 0 and the frame, or the refusal.
pub(crate) fn tell_victim(victim: Result<Frame, Refusal>, value: &mut usize) -> u32
    ensures { told result value.new ≡ chosen_of victim }
{
    tell(victim.map(|frame| usize::from(frame.0)), value)
}

// A test: 1 where it passes, 0 where it fails.
#[tactic(auto, unfolding(rules::specs::Lists::one))]
pub(crate) fn tell_test(passes: bool) -> u32
    ensures { result ≡ one passes }
{
    u32::from(passes)
}
