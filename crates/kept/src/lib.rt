// How code keeps a list and its counts, as numbers in lent memory: an entry from a rank and a page, the pages of a list of
// entries, and the sums of depths. The laws in specs/ tie what is kept to the definitions of `theory`.
#![tactic(auto)]

mod depths;
mod shown;

ghost use Rattle.kept.specs.Entries.{entry as «entry_of», page_of};
ghost use Rattle.std.specs.Prelude.{min, ◌≡◌};

pub use depths::{DEPTHS, fill, sum};
pub use shown::{Listing, show};

// The entry of a page with a rank: the rank above, the page below, turned round since the smaller page number is the higher.
// Packed by hand, as C reads it in a session's places (rule X4).
#[tactic(auto, unfolding(crate::specs::Entries::entry))]
pub fn entry(rank: u16, page: u16) -> u32
    ensures { result ≡ «entry_of» (λ p. rank) page }
{
    u32::from(rank) * 65536 + u32::from(u16::MAX - page)
}

// The page of an entry.
#[tactic(auto, unfolding(crate::specs::Entries::page_of))]
pub fn page(entry: u32) -> u16
    ensures { result ≡ page_of entry }
{
    u16::MAX - (entry % 65536) as u16
}

// No more places are in use than there are.
pub fn in_use(n: usize, places: usize) -> usize
    ensures { result ≡ min n places }
{
    n.min(places)
}
