// Reading a session changes nothing: the list, the references accepted, the hits and misses at a capacity.
ghost use Rattle.session.specs.Reads.{ListRead, ReferencesRead, HitsRead, MissesRead};

use crate::Session;
use kept::{DEPTHS, Listing};
use rules::{CAPACITIES, Refusal};

// The list as it stands.
#[tactic(auto, using(crate::proofs::ReadLaws::list_read))]
pub fn list(s: Session, places: &[u32; CAPACITIES]) -> Listing
    ensures { ListRead s places.now result }
{
    Listing {
        length: s.length,
        places: kept::show(places, s.length),
    }
}

// How many references were accepted.
pub fn references(s: Session) -> usize
    ensures { ReferencesRead s result }
{
    s.references
}

// How many of them were hits at capacity `c`.
pub fn hits(s: Session, depths: &[u32; DEPTHS], c: usize) -> Result<usize, Refusal>
    ensures { HitsRead s depths.now c result }
{
    if c < 1 || s.k < c {
        return Err(Refusal::BadCapacity);
    }
    Ok(kept::sum(depths, c))
}

// How many of them were misses at capacity `c`: 0 where a table of other memory says more hits than references.
pub fn misses(s: Session, depths: &[u32; DEPTHS], c: usize) -> Result<usize, Refusal>
    ensures { MissesRead s depths.now c result }
{
    let hits = hits(s, depths, c)?;
    Ok(s.references.saturating_sub(hits))
}
