// A console: a register, a memory, and the switch that runs over them once one was made.
ghost use Rattle.std.specs.Prelude.{◌≡◌, ℕ, Some, None};
ghost use Rattle.plan.specs.Measures.{Misses, Lawful};
ghost use Rattle.switch.specs.Calls.{fresh};
ghost use Rattle.switch.specs.Desks.{desk, view};
ghost use Rattle.commands.specs.Agreed.{ConsoleObeys, Made};
ghost use Rattle.commands.specs.declared.command.Command.TheVariants.{Make, Place, Look};

use crate::command::Command;
use crate::reply::{Outcome, Reply};
use crate::settling::settle;
use memory::fitting::Fitting;
use memory::reader::Reader;
use memory::rule_memory::RuleMemory;
use model::order::Order;
use plan::measure::Measure;
use rules::refusal::Refusal;
use rules::width::Width;
use switch::looking::look;
use switch::making::make;
use switch::register::Register;
use switch::state::{Refused, State, retire};

// It can be neither copied nor let go, like the state in it: `shut` ends it.
pub struct Console<M> {
    register: Register,
    memory: M,
    running: Option<State>,
}

impl<M: Fitting> Console<M> {
    // A console with no switch yet.
    pub fn open(memory: M) -> Console<M>
        ensures register { desk result.register ≡ fresh 1 0 }
        ensures running { result.running ≡ None }
        ensures memory { result.memory ≡ memory }
    {
        Console {
            register: Register::new(),
            memory,
            running: None,
        }
    }

    // Carries out a command. Nothing but a making is read before one was accepted; a refusal leaves everything as it was.
    pub fn obey<E: Measure>(&mut self, measure: &E, command: Command) -> Result<Reply, Refusal>
        ensures { ConsoleObeys M.Reader.held_at M.Reader.size M.RuleMemory.limit (E.Measure.miss measure.now) (M.Fitting.most self.old.memory) command self.old self.new result }
    {
        match command {
            Command::Make { width, capacity } => self.make_anew(width, capacity),
            Command::Place(order) => self.place(order, measure),
            Command::Look { tag, address } => self.see(tag, address),
            Command::List => match self.running {
                Some(_) => Ok(Reply::Listing),
                None => Err(Refusal::Unreadable),
            },
        }
    }

    // Fits the memory and makes a switch, both or neither. The one that was running is let go only then.
    fn make_anew(&mut self, width: u32, capacity: u32) -> Result<Reply, Refusal>
        ensures { (miss : Misses) → Lawful miss → ConsoleObeys M.Reader.held_at M.Reader.size M.RuleMemory.limit miss (M.Fitting.most self.old.memory) (Make width capacity) self.old self.new result }
    {
        let state = self.begin(width, capacity)?;
        self.install(state);
        Ok(Reply::Settled(Outcome {
            worst: 0,
            rules: 0,
            steps: 0,
        }))
    }

    // A new switch in the fitted memory, beside the one that is running.
    fn begin(&mut self, width: u32, capacity: u32) -> Result<State, Refusal>
        ensures made { Made (M.Fitting.most self.old.memory) width capacity (desk self.old.register) (desk self.new.register) (view M.Reader.held_at M.Reader.size M.RuleMemory.limit self.old.memory) (view M.Reader.held_at M.Reader.size M.RuleMemory.limit self.new.memory) result }
        ensures running { self.new.running ≡ self.old.running }
    {
        if capacity > self.memory.ceiling() {
            return Err(Refusal::AboveCeiling);
        }
        let _ = Width::new(width)?;
        self.memory.fit(capacity)?;
        let resting = make(width, &mut self.register, &self.memory)?;
        Ok(State::Resting(resting))
    }

    // Runs an order to rest.
    fn place<E: Measure>(&mut self, order: Order, measure: &E) -> Result<Reply, Refusal>
        ensures { (ceiling : ℕ) → ConsoleObeys M.Reader.held_at M.Reader.size M.RuleMemory.limit (E.Measure.miss measure.now) ceiling (Place order) self.old self.new result }
    {
        match self.running.take() {
            Some(State::Resting(resting)) => {
                match settle(
                    resting,
                    order,
                    measure,
                    &mut self.register,
                    &mut self.memory,
                ) {
                    Ok((resting, forecast)) => {
                        self.install(State::Resting(resting));
                        Ok(forecast.into())
                    }
                    Err(Refused { state, why }) => {
                        self.install(state);
                        Err(why)
                    }
                }
            }
            Some(state) => {
                self.install(state);
                Err(Refusal::Unreadable)
            }
            None => Err(Refusal::Unreadable),
        }
    }

    // The server of an address.
    fn see(&self, tag: u32, address: u32) -> Result<Reply, Refusal>
        ensures { (miss : Misses) (ceiling : ℕ) → ConsoleObeys M.Reader.held_at M.Reader.size M.RuleMemory.limit miss ceiling (Look tag address) self.now self.now result }
    {
        if self.running.is_none() {
            return Err(Refusal::Unreadable);
        }
        let server = look(&self.register, &self.memory, tag, address)?;
        Ok(Reply::Seen(server))
    }

    // This is the running switch from now on. One that was running is let go.
    fn install(&mut self, state: State)
        ensures running { self.new.running ≡ Some state }
        ensures register { self.new.register ≡ self.old.register }
        ensures memory { self.new.memory ≡ self.old.memory }
    {
        if let Some(old) = self.running.replace(state) {
            let _ = retire(old);
        }
    }

    // Ends a console, and hands its memory back as it is.
    pub fn shut(self) -> M
        ensures { result ≡ self.memory }
    {
        let Console {
            register: _,
            memory,
            running,
        } = self;
        if let Some(state) = running {
            let _ = retire(state);
        }
        memory
    }
}
