// Sessions for callers in C and Rust: a session stands in memory that the caller lends in its parts, and only a start and a
// reference write it.
ghost use Rattle.rules.specs.Told.{told};
ghost use Rattle.exports.specs.Lent.{session_in};
ghost use Rattle.exports.specs.Session.{StartTold, ReferTold};

use kept::DEPTHS;
use rules::{CAPACITIES, PAGES, Page, Refusal, tell};
use session::Session;

// Starts a session under a policy with a list of so many places, whatever stood in the memory. A refusal leaves the memory
// as it was; its place is always 0, so there is no value to tell.
#[unsafe(no_mangle)]
pub extern "C" fn musselrung_session_start_parts(
    wanted: u32,
    limit: usize,
    policy: &mut u8,
    k: &mut usize,
    length: &mut usize,
    references: &mut usize,
    places: &mut [u32; CAPACITIES],
    depths: &mut [u32; DEPTHS],
    counts: &mut [u16; PAGES as usize],
) -> u32
    ensures { StartTold wanted limit
        (session_in policy.old k.old length.old references.old places.old depths.old counts.old)
        (session_in policy.new k.new length.new references.new places.new depths.new counts.new) result }
{
    match session::start(rules::byte_of(wanted), limit, places, depths, counts) {
        Ok(begun) => {
            *policy = begun.policy;
            *k = begun.k;
            *length = begun.length;
            *references = begun.references;
            0
        }
        Err(refusal) => u32::from(refusal.number()),
    }
}

// One reference: 0 and its depth, or a refusal, which leaves the memory as it was. A reference writes neither the policy
// nor K.
#[unsafe(no_mangle)]
pub extern "C" fn musselrung_session_refer_parts(
    policy: u8,
    k: usize,
    length: &mut usize,
    references: &mut usize,
    places: &mut [u32; CAPACITIES],
    depths: &mut [u32; DEPTHS],
    counts: &mut [u16; PAGES as usize],
    page: u32,
    value: &mut usize,
) -> u32
    ensures { ReferTold
        (session_in policy k length.old references.old places.old depths.old counts.old) page
        (session_in policy k length.new references.new places.new depths.new counts.new) (told result value.new) }
{
    let mut s = Session {
        policy,
        k,
        length: *length,
        references: *references,
    };
    if !session::fits(s) {
        return tell(Err(Refusal::Unsound), value);
    }
    let depth = session::refer(&mut s, Page(rules::short_of(page)), places, depths, counts);
    *length = s.length;
    *references = s.references;
    tell(depth, value)
}
