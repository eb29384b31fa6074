// What a console replies to a command that is not refused.
ghost use Rattle.std.specs.Prelude.{◌≡◌};
ghost use Rattle.commands.specs.Talks.{settled};

use model::answer::Forecast;
use rules::server::Server;

// What came of an order that was run to rest: the worst miss, the rules of all services, and the steps that it took.
#[derive(Clone, Copy, PartialEq, Eq, Debug)]
pub struct Outcome {
    pub worst: u64,
    pub rules: u32,
    pub steps: u32,
}

#[derive(Clone, Copy, PartialEq, Eq, Debug)]
pub enum Reply {
    // Run to rest.
    Settled(Outcome),
    // The server of a look.
    Seen(Option<Server>),
    // The listing of the standing rules.
    Listing,
}

impl From<Forecast> for Reply {
    ghost from_gives = { λ f r. r ≡ settled f };

    fn from(forecast: Forecast) -> Reply {
        Reply::Settled(Outcome {
            worst: forecast.worst,
            rules: forecast.rules,
            steps: forecast.steps,
        })
    }
}
