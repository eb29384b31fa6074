// What the two calls answer. Kept as numbers of 32 bits, with a flag beside the excess, and not as a Result and an Option: this is the shape that C
// knows. A refusal of 0 says that the call was carried out. Each answer has its own `From`: an impl is for one type.
ghost use Rattle.std.specs.Prelude.{◌≡◌};
ghost use Rattle.controller.specs.Answers.{no_table, no_count, count_of};

use rules::counter::Count;
use rules::refusal::Refusal;

// How many rules the table has.
#[repr(C)]
#[derive(Clone, Copy, PartialEq, Eq, Debug)]
pub struct TableAnswer {
    pub refusal: u32,
    pub rules: u32,
}

impl From<Refusal> for TableAnswer {
    ghost from_gives = { λ why answer. answer ≡ no_table why };

    fn from(why: Refusal) -> TableAnswer {
        TableAnswer {
            refusal: u32::from(why.number()),
            rules: 0,
        }
    }
}

// The addresses of each server and those that no rule matches; `complete` is 1 where every address is matched, and only then there is an excess.
#[repr(C)]
#[derive(Clone, Copy, PartialEq, Eq, Debug, Default)]
pub struct CountAnswer {
    pub refusal: u32,
    pub one: u32,
    pub two: u32,
    pub unmatched: u32,
    pub complete: u32,
    pub excess: u32,
}

impl From<Refusal> for CountAnswer {
    ghost from_gives = { λ why answer. answer ≡ no_count why };

    fn from(why: Refusal) -> CountAnswer {
        CountAnswer {
            refusal: u32::from(why.number()),
            ..CountAnswer::default()
        }
    }
}

impl From<Count> for CountAnswer {
    ghost from_gives = { λ count answer. answer ≡ count_of count };

    fn from(count: Count) -> CountAnswer {
        CountAnswer {
            refusal: 0,
            one: count.one,
            two: count.two,
            unmatched: count.unmatched,
            complete: u32::from(count.excess.is_some()),
            excess: count.excess.unwrap_or(0),
        }
    }
}
