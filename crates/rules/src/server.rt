// The two servers between which a service's addresses are divided.
ghost use Rattle.std.specs.Prelude.{◌≡◌, ok_or, Some, decimal};
ghost use Rattle.rules.specs.declared.refusal.Refusal.TheVariants.{BrokenLayout};
ghost use Rattle.rules.specs.Servers.{server_number, server_of};

use crate::refusal::Refusal;
use std::fmt;

// Each is known outside by its number: in listings, records and printed rules.
#[derive(Clone, Copy, PartialEq, Eq, Debug)]
pub enum Server {
    One = 1,
    Two = 2,
}

impl Server {
    pub fn number(self) -> u8
        ensures { result ≡ server_number self }
    {
        self as u8
    }
}

impl TryFrom<u8> for Server {
    type Error = Refusal;

    ghost try_from_gives = { λ number result. result ≡ ok_or (server_of number) BrokenLayout };

    fn try_from(number: u8) -> Result<Server, Refusal> {
        match number {
            1 => Ok(Server::One),
            2 => Ok(Server::Two),
            _ => Err(Refusal::BrokenLayout),
        }
    }
}

impl fmt::Display for Server {
    ghost output = { λ server. Some (decimal (server_number server)) };

    fn fmt<W: fmt::Write>(&self, f: &mut fmt::Formatter<W>) -> fmt::Result {
        let number = self.number();
        write!(f, "{number}")
    }
}
