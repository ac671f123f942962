// The replacement policies (rule L7): each has a number, and no other number is a policy's.
ghost use Rattle.std.specs.Prelude.{◌≡◌};
ghost use Rattle.rules.specs.Policies.{NumberOf, PolicyOf};

use crate::Refusal;

#[derive(Clone, Copy, Debug, PartialEq, Eq)]
pub enum Policy {
    Lru,
    Lfu,
    Opt,
}

impl From<Policy> for u8 {
    ghost from_gives = { NumberOf };

    fn from(policy: Policy) -> u8 {
        match policy {
            Policy::Lru => 0,
            Policy::Lfu => 1,
            Policy::Opt => 2,
        }
    }
}

impl TryFrom<u8> for Policy {
    type Error = Refusal;

    ghost try_from_gives = { PolicyOf };

    fn try_from(number: u8) -> Result<Self, Refusal> {
        match number {
            0 => Ok(Policy::Lru),
            1 => Ok(Policy::Lfu),
            2 => Ok(Policy::Opt),
            _ => Err(Refusal::BadPolicy),
        }
    }
}
