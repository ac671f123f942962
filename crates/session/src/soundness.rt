// Is a session sound (rule X4)? What the tests of the calls leave to the caller who wants to know: that the list holds
// pages, each once and with its count, and that the counts add up. A session that a start and calls gave passes
// (proofs/SoundLaws.antt).
ghost use Rattle.std.specs.Prelude.{◌<◌, ◌≡◌};
ghost use Rattle.rules.specs.Limits.{capacities, pages};
ghost use Rattle.rules.specs.AllBelow.{all_below};
ghost use Rattle.session.specs.Lent.{lent_of};
ghost use Rattle.session.specs.Tests.{sound as «sound_of», total, stands_else};
ghost use Rattle.session.specs.Tests.{page_stands as «page_stands_of», place_stands as «place_stands_of»};
ghost use Rattle.session.specs.Tests.{counts_add_up as «counts_add_up_of»};

use crate::{Session, countable};
use kept::DEPTHS;
use rules::{CAPACITIES, PAGES, Policy, all_pass};

// Do other pages stand in all places before this one? Places are below 64, so their number fits a byte.
fn not_before(places: &[u32; CAPACITIES], page: u16, i: usize) -> bool
    requires { i < capacities }
    ensures { result ≡ all_below (stands_else places.now page) i }
{
    all_pass(i as u8, |j| kept::page(places[usize::from(j)]) != page)
}

// Does a page stand in this place, with its count beside it, and in none before?
#[tactic(auto, unfolding(crate::specs::Tests::page_stands))]
fn page_stands(places: &[u32; CAPACITIES], counts: &[u16; PAGES as usize], i: usize) -> bool
    requires { i < capacities }
    ensures { result ≡ «page_stands_of» places.now counts.now i }
{
    let entry = places[i];
    let page = kept::page(entry);
    page < PAGES && entry == kept::entry(counts[page as usize], page) && not_before(places, page, i)
}

// The same of a place in use; a place behind reads 0.
#[tactic(auto, unfolding(crate::specs::Tests::place_stands))]
fn place_stands(
    used: usize,
    places: &[u32; CAPACITIES],
    counts: &[u16; PAGES as usize],
    i: usize,
) -> bool
    requires { i < capacities }
    ensures { result ≡ «place_stands_of» used places.now counts.now i }
{
    if i < used {
        page_stands(places, counts, i)
    } else {
        places[i] == 0
    }
}

// Place by place, with a way out: a session whose first place is bad is told at once.
fn places_stand(used: usize, places: &[u32; CAPACITIES], counts: &[u16; PAGES as usize]) -> bool
    ensures { result ≡ all_below («place_stands_of» used places.now counts.now) capacities }
{
    (0..CAPACITIES).all(|i| place_stands(used, places, counts, i))
}

// How often any page was counted; `all_depths` says why it has a line of its own.
fn all_counts(counts: &[u16; PAGES as usize]) -> usize
    ensures { result ≡ total counts.now pages }
{
    counts.iter().map(|&count| usize::from(count)).sum()
}

// LFU counted each reference once; LRU counts none.
#[tactic(auto, unfolding(crate::specs::Tests::counts_add_up))]
fn counts_add_up(s: Session, counts: &[u16; PAGES as usize]) -> bool
    ensures { result ≡ «counts_add_up_of» s counts.now }
{
    let counted = match Policy::try_from(s.policy) {
        Ok(Policy::Lfu) => s.references,
        _ => 0,
    };
    all_counts(counts) == counted
}

// X4: is all of it sound?
#[tactic(auto, unfolding(crate::specs::Tests::sound))]
pub fn sound(
    s: Session,
    places: &[u32; CAPACITIES],
    depths: &[u32; DEPTHS],
    counts: &[u16; PAGES as usize],
) -> bool
    ensures { result ≡ «sound_of» (lent_of s places.now depths.now counts.now) }
{
    countable(s, depths) && places_stand(s.length, places, counts) && counts_add_up(s, counts)
}
