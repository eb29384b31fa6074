// What a call answers.
use crate::order::Order;
use rules::refusal::Refusal;
use rules::server::Server;

// What comes of an order once it is carried out: the worst miss, the rules of all services, and how many steps lead there.
#[derive(Clone, Copy, PartialEq, Eq, Debug)]
pub struct Forecast {
    pub order: Order,
    pub worst: u64,
    pub rules: u32,
    pub steps: u32,
}

#[derive(Clone, Copy, PartialEq, Eq, Debug)]
pub enum Answer {
    // Carried out, and there is nothing to tell.
    Done,
    Drafted(Forecast),
    Seen(Option<Server>),
    Refused(Refusal),
    // The present state takes no such call: the type checker keeps a driver from making it, and a list of calls can name it all the same.
    NotTaken,
}
