// The test of a row under banks in lent memory (rule X6): the row's test, and one pass over the gates. It is exact: memory
// passes it exactly if fresh banks and calls give it (proofs/BankTestLaws.antt of `bank_theory`). As in the row's test the parts
// ask for the lengths of what they read.
ghost use Rattle.std.specs.Prelude.{◌≡◌, ◌<◌, length};
ghost use Rattle.rules.specs.Limits.{frames, banks as bank_count};
ghost use Rattle.rules.specs.AllBelow.{all_below};
ghost use Rattle.bank_theory.specs.BankTest.{gate_sound as «gate_sound_of», bank_sound as «bank_sound_of», BanksTested};
ghost use Rattle.bank_theory.specs.BankPromise.{bank_memory};
ghost use Rattle.row_theory.specs.Promise.{memory};

use bank_theory::{CLOSING, OFF};
use row_theory::{ABSENT, PerFrame, PerSlot};
use rules::{BANK_FRAMES, BANKS, all_pass, both, pick};

// A frame's gate is that of the first frame of its bank, and one of the three; where it is off, the frame is absent.
#[tactic(auto, unfolding(bank_theory::specs::BankTest::gate_sound))]
fn gate_sound(gates: &[u8], states: &[u8], first: usize, frame: usize) -> bool
    requires { (length gates.now ≡ frames) × (length states.now ≡ frames) × (first < frames) × (frame < frames) }
    ensures { result ≡ «gate_sound_of» gates.now states.now first frame }
{
    let gate = gates[frame];
    let fits = pick(gate == OFF, states[frame] == ABSENT, gate <= CLOSING);
    both(gate == gates[first], fits)
}

// So it is of each frame of a bank.
#[tactic(auto, unfolding(bank_theory::specs::BankTest::bank_sound))]
fn bank_sound(gates: &[u8], states: &[u8], bank: usize) -> bool
    requires { (length gates.now ≡ frames) × (length states.now ≡ frames) × (bank < bank_count) }
    ensures { result ≡ «bank_sound_of» gates.now states.now bank }
{
    let first = bank * BANK_FRAMES as usize;
    all_pass(BANK_FRAMES, |n| {
        gate_sound(gates, states, first, first + usize::from(n))
    })
}

// Bank by bank, with a way out: a bank's sixteen gates are compared at once, and not four banks' at a time.
fn gates_sound(gates: &[u8], states: &[u8]) -> bool
    requires { (length gates.now ≡ frames) × (length states.now ≡ frames) }
    ensures { result ≡ all_below («bank_sound_of» gates.now states.now) bank_count }
{
    (0..BANKS as usize).all(|bank| bank_sound(gates, states, bank))
}

// Are these banks and their row such as fresh ones and calls give?
pub fn sound(
    slots: &PerSlot,
    places: &PerFrame,
    states: &PerFrame,
    front: usize,
    held: usize,
    gates: &PerFrame,
) -> bool
    ensures { BanksTested
        (bank_memory (memory slots.now places.now states.now front held) gates.now) result }
{
    row::sound(slots, places, states, front, held) && gates_sound(gates, states)
}
