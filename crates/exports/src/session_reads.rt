// What a session is asked between its references, for callers in C and Rust: reading it changes nothing.
ghost use Rattle.rules.specs.Told.{told};
ghost use Rattle.exports.specs.Lent.{session_of};
ghost use Rattle.exports.specs.Session.{ListShown, ReferencesTold, HitsTold, MissesTold};

use crate::whole_trace::page_numbers;
use kept::DEPTHS;
use rules::{CAPACITIES, Refusal, tell};
use session::Session;

// The list as it stands: its pages' numbers in the order of places, 0 past its length, which is the value.
#[unsafe(no_mangle)]
pub extern "C" fn musselrung_session_list_parts(
    policy: u8,
    k: usize,
    length: usize,
    references: usize,
    places: &[u32; CAPACITIES],
    shown: &mut [u16; CAPACITIES],
    value: &mut usize,
) -> u32
    ensures { ListShown (session_of policy k length references) places.now
        shown.old shown.new (told result value.new) }
{
    let s = Session {
        policy,
        k,
        length,
        references,
    };
    if !session::fits(s) {
        return tell(Err(Refusal::Unsound), value);
    }
    let listing = session::list(s, places);
    *shown = page_numbers(listing.places);
    tell(Ok(listing.length), value)
}

// How many references were accepted.
#[unsafe(no_mangle)]
pub extern "C" fn musselrung_session_references_parts(
    policy: u8,
    k: usize,
    length: usize,
    references: usize,
    value: &mut usize,
) -> u32
    ensures { ReferencesTold (session_of policy k length references) (told result value.new) }
{
    let s = Session {
        policy,
        k,
        length,
        references,
    };
    if !session::fits(s) {
        return tell(Err(Refusal::Unsound), value);
    }
    tell(Ok(session::references(s)), value)
}

// 0 and the hits at a capacity, or a refusal.
#[unsafe(no_mangle)]
pub extern "C" fn musselrung_session_hits_parts(
    policy: u8,
    k: usize,
    length: usize,
    references: usize,
    depths: &[u32; DEPTHS],
    capacity: usize,
    value: &mut usize,
) -> u32
    ensures { HitsTold (session_of policy k length references)
        depths.now capacity (told result value.new) }
{
    let s = Session {
        policy,
        k,
        length,
        references,
    };
    if !session::countable(s, depths) {
        return tell(Err(Refusal::Unsound), value);
    }
    tell(session::hits(s, depths, capacity), value)
}

// 0 and the misses at a capacity, or a refusal.
#[unsafe(no_mangle)]
pub extern "C" fn musselrung_session_misses_parts(
    policy: u8,
    k: usize,
    length: usize,
    references: usize,
    depths: &[u32; DEPTHS],
    capacity: usize,
    value: &mut usize,
) -> u32
    ensures { MissesTold (session_of policy k length references)
        depths.now capacity (told result value.new) }
{
    let s = Session {
        policy,
        k,
        length,
        references,
    };
    if !session::countable(s, depths) {
        return tell(Err(Refusal::Unsound), value);
    }
    tell(session::misses(s, depths, capacity), value)
}
