// The two halves of a step under LRU: where the old entry stands, and the shift of all that stands before it. Finding goes by
// blocks whose places are compared many at once: a search from place to place took half as long again where the entry is
// missed, and a test of the whole list before that search a sixth longer where it is found.
ghost use Rattle.step.specs.Shifting.{Found, Free};
ghost use Rattle.std.specs.Prelude.{◌+◌, ◌<◌, length, take, drop, ◌∷◌, ◌++◌, ◌≡◌, eqb};
ghost use Rattle.std.specs.List.{position};

const BLOCK: usize = 8;

// So many first places can be passed over: whole blocks without the old entry.
fn passed(list: &[u32], old: u32) -> usize
    ensures { Free old result list.now }
{
    let (blocks, _) = list.as_chunks::<BLOCK>();
    for (i, block) in blocks.iter().enumerate() {
        if block.contains(&old) {
            return BLOCK * i;
        }
    }
    BLOCK * blocks.len()
}

// The first of some places that has the entry.
fn place_of(list: &[u32], old: u32) -> Option<usize>
    ensures { result ≡ position (λ entry. eqb entry old) list.now }
{
    list.iter().position(|&entry| entry == old)
}

// The place of the old entry, from 0.
pub(crate) fn find(list: &[u32], old: u32) -> Option<usize>
    ensures { Found old list.now result }
{
    let from = passed(list, old);
    let behind = place_of(&list[from..], old)?;
    Some(from + behind)
}

// The entry goes to place 1, and the first `to` places each one down, over the place behind them.
pub(crate) fn shift_down(list: &mut [u32], to: usize, first: u32)
    requires { to < length list.old }
    ensures { list.new ≡ first ∷ (take to list.old ++ drop (to + 1) list.old) }
{
    list.copy_within(0..to, 1);
    list[0] = first;
}
