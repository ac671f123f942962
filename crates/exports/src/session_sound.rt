// Whether lent memory is a sound session, for callers in C and Rust: the other calls test only what they need.
ghost use Rattle.std.specs.Prelude.{◌≡◌};
ghost use Rattle.rules.specs.Lists.{one};
ghost use Rattle.session.specs.Lent.{lent_of};
ghost use Rattle.session.specs.Tests.{sound as sound_in};
ghost use Rattle.exports.specs.Lent.{session_of};

use kept::DEPTHS;
use rules::{CAPACITIES, PAGES};
use session::Session;

// 1 if the session is sound, else 0: for a caller who took it from a file or another program. A session that a start and
// calls gave always is.
#[tactic(auto, unfolding(rules::specs::Lists::one))]
#[unsafe(no_mangle)]
pub extern "C" fn musselrung_session_sound_parts(
    policy: u8,
    k: usize,
    length: usize,
    references: usize,
    places: &[u32; CAPACITIES],
    depths: &[u32; DEPTHS],
    counts: &[u16; PAGES as usize],
) -> u32
    ensures { result ≡ one (sound_in (lent_of (session_of policy k length references)
        places.now depths.now counts.now)) }
{
    let s = Session {
        policy,
        k,
        length,
        references,
    };
    u32::from(session::sound(s, places, depths, counts))
}
