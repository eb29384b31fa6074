// The states of a switch. A state is moved from call to call: it can be neither copied nor let go, and only the calls make one.
ghost use Rattle.std.specs.Prelude.{◌≡◌, MatchResult};
ghost use Rattle.switch.specs.declared.state.State.TheVariants as state;
ghost use Rattle.switch.specs.States.{rests};

use model::answer::Forecast;
use rules::refusal::Refusal;

// Nothing is under way. It has the width that the switch was made with.
pub struct Resting {
    pub(crate) width: u32,
}

// An order was placed and not accepted yet. It has what comes of the order.
pub struct Draft {
    pub(crate) forecast: Forecast,
}

// A change is under way. It has the number of its steps.
pub struct Changing {
    pub(crate) steps: u32,
}

impl Draft {
    // What comes of the order.
    pub fn forecast(&self) -> Forecast
        ensures { result ≡ self.now.forecast }
    {
        self.forecast
    }
}

impl Changing {
    // How many steps the change has, the ones done among them.
    pub fn steps(&self) -> u32
        ensures { result ≡ self.now.steps }
    {
        self.steps
    }
}

// A refused call hands the state back.
pub struct Refused<S> {
    pub state: S,
    pub why: Refusal,
}

// What a step of a call gave, and the state beside it; where the step refuses, the state goes back with the refusal.
pub(crate) fn hand_back<T, S>(given: Result<T, Refusal>, state: S) -> Result<(T, S), Refused<S>>
    ensures { MatchResult result (λ r. (given ≡ Ok r.0) × (r.1 ≡ state)) (λ e. (given ≡ Err e.why) × (e.state ≡ state)) }
{
    match given {
        Ok(value) => Ok((value, state)),
        Err(why) => Err(Refused { state, why }),
    }
}

// A switch in one of its states: what a chain of calls leaves.
pub enum State {
    Resting(Resting),
    Drafted(Draft),
    Changing(Changing),
}

// A refusal passes by `?` to a caller that goes on with whatever state it is handed.
// Kept as three: one for every `S: Into<State>` overlaps with `impl<T> From<T> for T`, and a trait of its own takes three impls again.
impl From<Refused<Resting>> for Refused<State> {
    ghost from_gives = { λ e r. r ≡ record { state = state.Resting e.state; why = e.why } };

    fn from(value: Refused<Resting>) -> Refused<State> {
        let Refused { state, why } = value;
        Refused {
            state: State::Resting(state),
            why,
        }
    }
}

impl From<Refused<Draft>> for Refused<State> {
    ghost from_gives = { λ e r. r ≡ record { state = state.Drafted e.state; why = e.why } };

    fn from(value: Refused<Draft>) -> Refused<State> {
        let Refused { state, why } = value;
        Refused {
            state: State::Drafted(state),
            why,
        }
    }
}

impl From<Refused<Changing>> for Refused<State> {
    ghost from_gives = { λ e r. r ≡ record { state = state.Changing e.state; why = e.why } };

    fn from(value: Refused<Changing>) -> Refused<State> {
        let Refused { state, why } = value;
        Refused {
            state: State::Changing(state),
            why,
        }
    }
}

// The one way to let go of a switch: on purpose. Tells whether it was at rest; if not, a draft is forgotten, or a change stays as far as it got.
pub fn retire(state: State) -> bool
    ensures { result ≡ rests state }
{
    match state {
        State::Resting(Resting { width: _ }) => true,
        State::Drafted(Draft { forecast: _ }) => false,
        State::Changing(Changing { steps: _ }) => false,
    }
}
