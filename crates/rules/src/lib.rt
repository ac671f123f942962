// What every other crate shares: the limits, the policies, the refusals, and the kinds of number that must not be mixed. The
// definitions beside them (specs/Limits.antt, specs/Refusals.antt) name the same numbers for promises: code that uses one and
// a promise that cites the other are proved only while both agree.
#![tactic(auto)]

mod policy;
mod refusal;

ghost use Rattle.std.specs.Prelude.{ℕ, Bool, min, ◌≡◌, ◌<◌, cond, ◌&&◌};
ghost use Rattle.rules.specs.AllBelow.{all_below};
ghost use Rattle.rules.specs.Limits.{is_capacity as «is_capacity_of»};

pub use policy::Policy;
pub use refusal::{Refusal, tell};

// A page number, a frame number and a bank number are different kinds of number (rule N1).
#[derive(Clone, Copy, Debug, PartialEq, Eq)]
pub struct Page(pub u16);

#[derive(Clone, Copy, Debug, PartialEq, Eq)]
pub struct Frame(pub u8);

#[derive(Clone, Copy, Debug, PartialEq, Eq)]
pub struct Bank(pub u8);

// Limits (rules L1 to L8); each is a number of things, so the largest page number is one less than PAGES.
pub const CAPACITIES: usize = 64;

pub const REFERENCES: usize = 4096;

pub const PAGES: u16 = 1024;

pub const FRAMES: u8 = 64;

pub const SLOTS: usize = 64;

pub const HELD: usize = 32;

pub const BANKS: u8 = 4;

pub const BANK_FRAMES: u8 = 16;

// Is this a capacity (rule L1)?
pub fn is_capacity(k: usize) -> bool
    ensures { result ≡ «is_capacity_of» k }
{
    1 <= k && k <= CAPACITIES
}

// C passes a page, a frame, a bank and a policy as 32 bits, so that none is cut on its way (rule X1). A number that the
// narrower kind does not hold becomes that kind's largest, which is past every limit as well. One function for both kinds
// would need a trait with the largest number of each and its law, where each body is one call.
pub fn byte_of(n: u32) -> u8
    ensures { result ≡ min n 255 }
{
    u8::try_from(n).unwrap_or(u8::MAX)
}

// The same in 16 bits, for a page.
pub fn short_of(n: u32) -> u16
    ensures { result ≡ min n 65535 }
{
    u16::try_from(n).unwrap_or(u16::MAX)
}

// Both of two tests, of which neither is left out: a loop of such tests can be done many at a time.
pub fn both(one: bool, two: bool) -> bool
    ensures { result ≡ (one && two) }
{
    one & two
}

// One of two tests, of which neither is left out. An `if`, named so that a test reads as its rule does.
pub fn pick(test: bool, yes: bool, otherwise: bool) -> bool
    ensures { result ≡ cond test yes otherwise }
{
    if test { yes } else { otherwise }
}

// Does the test pass at each number below n? The loop goes on where one has failed: without a way out many are tested at a time.
pub fn all_pass<F: Fn(u8) -> bool>(n: u8, test: F) -> bool
    requires { (i : ℕ) → i < n → F.pre test i }
    ensures { (p : ℕ → Bool) → ((i : ℕ) (r : Bool) → i < n → F.post test i r → r ≡ p i) → result ≡ all_below p n }
{
    let mut sound = true;
    for i in 0..n {
        sound = both(sound, test(i));
    }
    sound
}
