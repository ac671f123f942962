// The list as it is shown: pages in the order of places, and 0 past its length (rule A6).
ghost use Rattle.kept.specs.Shown.{shown_places};
ghost use Rattle.std.specs.Prelude.{◌≡◌};

use crate::{in_use, page};
use rules::{CAPACITIES, Page};

// A list that is shown: its length, and its pages in the order of places; places past the length read 0.
// An array beside its length: what the places past it read is promised too (rule A6).
#[derive(Clone, Copy, Debug, PartialEq, Eq)]
pub struct Listing {
    pub length: usize,
    pub places: [Page; CAPACITIES],
}

// The pages of the first `n` entries of a list; the places past them read 0.
pub fn show(list: &[u32], n: usize) -> [Page; CAPACITIES]
    ensures { result ≡ shown_places n list.now }
{
    let used = in_use(in_use(n, list.len()), CAPACITIES);
    let mut places = [Page(0); CAPACITIES];
    for i in 0..used {
        places[i] = Page(page(list[i]));
    }
    places
}
