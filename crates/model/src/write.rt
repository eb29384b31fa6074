// One write into a rule memory.
use memory::key::{KeyRule, Prefix};

#[derive(Clone, Copy, PartialEq, Eq, Debug)]
pub enum Write {
    Remove(Prefix),
    Put(KeyRule),
}
