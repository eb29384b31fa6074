// Why a call is refused: one closed list for the whole product.
ghost use Rattle.std.specs.Prelude.{◌≡◌, Some, decimal};
ghost use Rattle.rules.specs.Refusals.{refusal_number};

use std::error::Error;
use std::fmt;

// Each is known outside by its number.
#[derive(Clone, Copy, PartialEq, Eq, Debug)]
pub enum Refusal {
    // A console line cannot be read, or comes before an accepted making.
    Unreadable = 1,
    // A fitting names a capacity above the memory's ceiling.
    AboveCeiling = 2,
    // The width is outside 1 to 24.
    WidthOutOfRange = 3,
    // A making finds a rule in the memory.
    MemoryNotEmpty = 4,
    // A resting state or a draft meets a change under way, a changing state meets none, or an accepted draft is not what its order gives now.
    StateMismatch = 5,
    // A step with none left, or a close with some left.
    StepsMismatch = 6,
    // The tag is above 63.
    TagOutOfRange = 7,
    // A target or weight above 2^W, or an address of 2^W or more.
    BeyondWidth = 8,
    // An entry names a tag that is registered.
    AlreadyRegistered = 9,
    // A reweigh or withdrawal names a tag that is not registered.
    NotRegistered = 10,
    // An entry would make more services than the capacity.
    TooManyServices = 11,
    // A counted list of more than 1,024 rules, or a rule limit of 0.
    RuleCountOutOfRange = 12,
    // A rule, prefix or record breaks its layout.
    BrokenLayout = 13,
    // A new prefix while the count is at or above the capacity.
    MemoryFull = 14,
    // A step finds nothing at the prefix that it removes.
    NothingToRemove = 15,
    // The output buffer is too short.
    BufferTooShort = 16,
}

impl Refusal {
    pub fn number(self) -> u8
        ensures { result ≡ refusal_number self }
    {
        self as u8
    }
}

// A refusal is told by its number. Kept beside the like impl of `Server`: an impl is for one type.
impl fmt::Display for Refusal {
    ghost output = { λ why. Some (decimal (refusal_number why)) };

    fn fmt<W: fmt::Write>(&self, f: &mut fmt::Formatter<W>) -> fmt::Result {
        let number = self.number();
        write!(f, "{number}")
    }
}

impl Error for Refusal {}
