// One reference to a list that is kept as entries, in memory that the caller lends: the list step of every counting crate.
// `shift` is the step under LRU, where what is carried always stays at the next place; `place` is the step under LFU and OPT,
// where the larger of two entries stays. Both take any memory, any number of places in use, any limit and any entries.
//
// What is carried down a list ends in one of two ways: it breaks off at the depth of the old entry, whose place the carried
// one takes, or goes on to the end with the entry that is left over.
#![tactic(auto)]

mod shifting;

ghost use Rattle.step.specs.Stepped.{AtPlace, Carrying, Placed, Settled, Stepped};
ghost use Rattle.kept.specs.Entries.{larger, always};
ghost use Rattle.std.specs.Prelude.{◌<◌, length};

use kept::in_use;
use shifting::{find, shift_down};
use std::ops::ControlFlow;

// What a reference answers: the depth at which the old entry stood, or 0; and the places in use after it. 0 is the rules' own
// number for "not in the list": the table of depths is read by it, and C is told it.
#[derive(Clone, Copy, Debug, PartialEq, Eq)]
pub struct Step {
    pub depth: usize,
    pub length: usize,
}

// Carries `first` down the list, to the old entry's place or to the end: each place takes what came from the one above it.
fn carry_all(list: &mut [u32], old: u32, first: u32) -> ControlFlow<usize, u32>
    ensures { Carrying always old first list.old list.new result }
{
    if let Some(i) = find(list, old) {
        shift_down(list, i, first);
        return ControlFlow::Break(i + 1);
    }
    let n = list.len();
    if n == 0 {
        return ControlFlow::Continue(first);
    }
    let last = list[n - 1];
    shift_down(list, n - 1, first);
    ControlFlow::Continue(last)
}

// What is done at a place: the old entry gives it to the carried one; of any other the larger stays, and the smaller is
// carried on.
#[tactic(auto, using(crate::proofs::Walk::higher_is, crate::proofs::Walk::lower_is))]
fn at_place(list: &mut [u32], i: usize, old: u32, carried: u32) -> ControlFlow<usize, u32>
    requires { i < length list.old }
    ensures { AtPlace old carried i list.old list.new result }
{
    let here = list[i];
    if here == old {
        list[i] = carried;
        return ControlFlow::Break(i + 1);
    }
    list[i] = carried.max(here);
    ControlFlow::Continue(carried.min(here))
}

// Carries `first` down the list, to the old entry's place or to the end: at each place the larger entry stays.
fn carry_lower(list: &mut [u32], old: u32, first: u32) -> ControlFlow<usize, u32>
    ensures { Carrying larger old first list.old list.new result }
{
    let mut carried = first;
    for i in 0..list.len() {
        carried = at_place(list, i, old, carried)?;
    }
    ControlFlow::Continue(carried)
}

// A new entry goes to place 1, and the old first entry is carried down the rest.
fn place_first(list: &mut [u32], old: u32, new: u32) -> ControlFlow<usize, u32>
    ensures { Placed larger old new list.old list.new result }
{
    if list.len() == 0 {
        return ControlFlow::Continue(new);
    }
    let first = list[0];
    list[0] = new;
    if first == old {
        return ControlFlow::Break(1);
    }
    match carry_lower(&mut list[1..], old, first) {
        // The sum always fits. With a plain `+` the loop counts by two numbers: LFU over a loop of 100 pages took 60 ns a
        // reference, and 55 so.
        ControlFlow::Break(depth) => ControlFlow::Break(depth.saturating_add(1)),
        ControlFlow::Continue(last) => ControlFlow::Continue(last),
    }
}

// What is left over takes the place behind those in use, if the limit and the memory have one.
fn settle(list: &mut [u32], used: usize, k: usize, carried: ControlFlow<usize, u32>) -> Step
    ensures { Settled used k carried list.old list.new result }
{
    match carried {
        ControlFlow::Continue(last) if used < k && used < list.len() => {
            list[used] = last;
            Step {
                depth: 0,
                length: used + 1,
            }
        }
        ControlFlow::Continue(_) => Step {
            depth: 0,
            length: used,
        },
        ControlFlow::Break(depth) => Step {
            depth,
            length: used,
        },
    }
}

// A reference under LRU to the page of `entry`, in a list of `n` places that may grow to `k`. The memory that C lends is longer
// than the list, so the list is this slice and `n`.
pub fn shift(list: &mut [u32], n: usize, k: usize, entry: u32) -> Step
    ensures { Stepped always k entry entry n list.old list.new result }
{
    let used = in_use(n, list.len());
    let carried = carry_all(&mut list[..used], entry, entry);
    settle(list, used, k, carried)
}

// A reference under LFU or OPT to the page whose entry is `old` and is `new` from now on.
pub fn place(list: &mut [u32], n: usize, k: usize, old: u32, new: u32) -> Step
    ensures { Stepped larger k old new n list.old list.new result }
{
    let used = in_use(n, list.len());
    let carried = place_first(&mut list[..used], old, new);
    settle(list, used, k, carried)
}
