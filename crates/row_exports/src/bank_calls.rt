// The row under banks for callers in C and Rust: row and gates stand in memory that the caller lends, in parts. A frame's gate
// is the state of its bank: 0 off, 1 open, 2 closing. No call asks anything of the memory: each tests it first (rule X6), and
// answers 40 and leaves it alone where it fails.
ghost use Rattle.rules.specs.Told.{told};
ghost use Rattle.row_theory.specs.Promise.{asked, memory};
ghost use Rattle.row_theory.specs.declared.Event.TheVariants.{Put, Touch, Start, End, Drop};
ghost use Rattle.bank_theory.specs.Banks.{of_frame, of_bank};
ghost use Rattle.bank_theory.specs.BankPromise.{FreshBanks, bank_memory};
ghost use Rattle.bank_theory.specs.declared.Gating.TheVariants.{Close, Cut, Open};
ghost use Rattle.row_exports.specs.BanksTold.{BanksTold, OpenVictimTold, BanksSoundTold};

use crate::telling::{tell_reply, tell_test, tell_victim};
use bank_theory::Gating;
use row_theory::{Event, PerFrame, PerSlot};
use rules::{Bank, Frame, Refusal, byte_of, tell};

// One of the five frame calls, told in numbers. Calls of frames, of banks and of rows alone are lent other memory in parts, so
// each kind has a function of its own.
fn call(
    slots: &mut PerSlot,
    places: &mut PerFrame,
    states: &mut PerFrame,
    front: &mut usize,
    held: &mut usize,
    gates: &PerFrame,
    event: Event,
    frame: u32,
    value: &mut usize,
) -> u32
    ensures { BanksTold (bank_memory (memory slots.old places.old states.old front.old held.old) gates.now)
        (of_frame (asked event frame)) (told result value.new)
        (bank_memory (memory slots.new places.new states.new front.new held.new) gates.now) }
{
    if !banks::sound(slots, places, states, *front, *held, gates) {
        return tell(Err(Refusal::Unsound), value);
    }
    let reply = banks::call(
        slots,
        places,
        states,
        front,
        held,
        gates,
        event,
        Frame(byte_of(frame)),
    );
    tell_reply(reply, value)
}

// One of the three bank calls, told in numbers.
fn gate(
    slots: &mut PerSlot,
    places: &mut PerFrame,
    states: &mut PerFrame,
    front: &mut usize,
    held: &mut usize,
    gates: &mut PerFrame,
    gating: Gating,
    bank: u32,
    value: &mut usize,
) -> u32
    ensures { BanksTold (bank_memory (memory slots.old places.old states.old front.old held.old) gates.old)
        (of_bank gating bank) (told result value.new)
        (bank_memory (memory slots.new places.new states.new front.new held.new) gates.new) }
{
    if !banks::sound(slots, places, states, *front, *held, gates) {
        return tell(Err(Refusal::Unsound), value);
    }
    let reply = banks::gate(
        slots,
        places,
        states,
        front,
        held,
        gates,
        gating,
        Bank(byte_of(bank)),
    );
    tell_reply(reply, value)
}

// Open banks over a fresh row, whatever stood in the memory.
#[unsafe(no_mangle)]
pub extern "C" fn musselrung_banks_fresh_parts(
    slots: &mut PerSlot,
    places: &mut PerFrame,
    states: &mut PerFrame,
    front: &mut usize,
    held: &mut usize,
    gates: &mut PerFrame,
)
    ensures { FreshBanks (bank_memory (memory slots.new places.new states.new front.new held.new) gates.new) }
{
    banks::fresh(slots, places, states, front, held, gates)
}

// The frame becomes idle and the most recent, if its bank is open.
#[unsafe(no_mangle)]
pub extern "C" fn musselrung_banks_put_parts(
    slots: &mut PerSlot,
    places: &mut PerFrame,
    states: &mut PerFrame,
    front: &mut usize,
    held: &mut usize,
    gates: &PerFrame,
    frame: u32,
    value: &mut usize,
) -> u32
    ensures { BanksTold (bank_memory (memory slots.old places.old states.old front.old held.old) gates.now)
        (of_frame (asked Put frame)) (told result value.new)
        (bank_memory (memory slots.new places.new states.new front.new held.new) gates.now) }
{
    call(
        slots,
        places,
        states,
        front,
        held,
        gates,
        Event::Put,
        frame,
        value,
    )
}

// The frame becomes the most recent.
#[unsafe(no_mangle)]
pub extern "C" fn musselrung_banks_touch_parts(
    slots: &mut PerSlot,
    places: &mut PerFrame,
    states: &mut PerFrame,
    front: &mut usize,
    held: &mut usize,
    gates: &PerFrame,
    frame: u32,
    value: &mut usize,
) -> u32
    ensures { BanksTold (bank_memory (memory slots.old places.old states.old front.old held.old) gates.now)
        (of_frame (asked Touch frame)) (told result value.new)
        (bank_memory (memory slots.new places.new states.new front.new held.new) gates.now) }
{
    call(
        slots,
        places,
        states,
        front,
        held,
        gates,
        Event::Touch,
        frame,
        value,
    )
}

// A transfer starts, if the frame's bank is open: the frame becomes busy.
#[unsafe(no_mangle)]
pub extern "C" fn musselrung_banks_start_parts(
    slots: &mut PerSlot,
    places: &mut PerFrame,
    states: &mut PerFrame,
    front: &mut usize,
    held: &mut usize,
    gates: &PerFrame,
    frame: u32,
    value: &mut usize,
) -> u32
    ensures { BanksTold (bank_memory (memory slots.old places.old states.old front.old held.old) gates.now)
        (of_frame (asked Start frame)) (told result value.new)
        (bank_memory (memory slots.new places.new states.new front.new held.new) gates.now) }
{
    call(
        slots,
        places,
        states,
        front,
        held,
        gates,
        Event::Start,
        frame,
        value,
    )
}

// The transfer ends: the frame becomes idle.
#[unsafe(no_mangle)]
pub extern "C" fn musselrung_banks_end_parts(
    slots: &mut PerSlot,
    places: &mut PerFrame,
    states: &mut PerFrame,
    front: &mut usize,
    held: &mut usize,
    gates: &PerFrame,
    frame: u32,
    value: &mut usize,
) -> u32
    ensures { BanksTold (bank_memory (memory slots.old places.old states.old front.old held.old) gates.now)
        (of_frame (asked End frame)) (told result value.new)
        (bank_memory (memory slots.new places.new states.new front.new held.new) gates.now) }
{
    call(
        slots,
        places,
        states,
        front,
        held,
        gates,
        Event::End,
        frame,
        value,
    )
}

// The frame becomes absent.
#[unsafe(no_mangle)]
pub extern "C" fn musselrung_banks_drop_parts(
    slots: &mut PerSlot,
    places: &mut PerFrame,
    states: &mut PerFrame,
    front: &mut usize,
    held: &mut usize,
    gates: &PerFrame,
    frame: u32,
    value: &mut usize,
) -> u32
    ensures { BanksTold (bank_memory (memory slots.old places.old states.old front.old held.old) gates.now)
        (of_frame (asked Drop frame)) (told result value.new)
        (bank_memory (memory slots.new places.new states.new front.new held.new) gates.now) }
{
    call(
        slots,
        places,
        states,
        front,
        held,
        gates,
        Event::Drop,
        frame,
        value,
    )
}

// An open bank becomes closing: nothing new goes into it.
#[unsafe(no_mangle)]
pub extern "C" fn musselrung_banks_close_parts(
    slots: &mut PerSlot,
    places: &mut PerFrame,
    states: &mut PerFrame,
    front: &mut usize,
    held: &mut usize,
    gates: &mut PerFrame,
    bank: u32,
    value: &mut usize,
) -> u32
    ensures { BanksTold (bank_memory (memory slots.old places.old states.old front.old held.old) gates.old)
        (of_bank Close bank) (told result value.new)
        (bank_memory (memory slots.new places.new states.new front.new held.new) gates.new) }
{
    gate(
        slots,
        places,
        states,
        front,
        held,
        gates,
        Gating::Close,
        bank,
        value,
    )
}

// A closing bank without a transfer becomes off, and its frames leave the row.
#[unsafe(no_mangle)]
pub extern "C" fn musselrung_banks_cut_parts(
    slots: &mut PerSlot,
    places: &mut PerFrame,
    states: &mut PerFrame,
    front: &mut usize,
    held: &mut usize,
    gates: &mut PerFrame,
    bank: u32,
    value: &mut usize,
) -> u32
    ensures { BanksTold (bank_memory (memory slots.old places.old states.old front.old held.old) gates.old)
        (of_bank Cut bank) (told result value.new)
        (bank_memory (memory slots.new places.new states.new front.new held.new) gates.new) }
{
    gate(
        slots,
        places,
        states,
        front,
        held,
        gates,
        Gating::Cut,
        bank,
        value,
    )
}

// A closing or an off bank becomes open.
#[unsafe(no_mangle)]
pub extern "C" fn musselrung_banks_open_parts(
    slots: &mut PerSlot,
    places: &mut PerFrame,
    states: &mut PerFrame,
    front: &mut usize,
    held: &mut usize,
    gates: &mut PerFrame,
    bank: u32,
    value: &mut usize,
) -> u32
    ensures { BanksTold (bank_memory (memory slots.old places.old states.old front.old held.old) gates.old)
        (of_bank Open bank) (told result value.new)
        (bank_memory (memory slots.new places.new states.new front.new held.new) gates.new) }
{
    gate(
        slots,
        places,
        states,
        front,
        held,
        gates,
        Gating::Open,
        bank,
        value,
    )
}

// The oldest idle frame in an open bank; asking changes nothing.
#[unsafe(no_mangle)]
pub extern "C" fn musselrung_banks_victim_parts(
    slots: &PerSlot,
    places: &PerFrame,
    states: &PerFrame,
    front: usize,
    held: usize,
    gates: &PerFrame,
    value: &mut usize,
) -> u32
    ensures { OpenVictimTold
        (bank_memory (memory slots.now places.now states.now front held) gates.now) (told result value.new) }
{
    if banks::sound(slots, places, states, front, held, gates) {
        let victim = banks::victim(slots, states, gates, front, held);
        return tell_victim(victim, value);
    }
    tell(Err(Refusal::Unsound), value)
}

// 1 if these are banks and a row that fresh ones and calls give, else 0.
#[unsafe(no_mangle)]
pub extern "C" fn musselrung_banks_sound_parts(
    slots: &PerSlot,
    places: &PerFrame,
    states: &PerFrame,
    front: usize,
    held: usize,
    gates: &PerFrame,
) -> u32
    ensures { BanksSoundTold
        (bank_memory (memory slots.now places.now states.now front held) gates.now) result }
{
    tell_test(banks::sound(slots, places, states, front, held, gates))
}
