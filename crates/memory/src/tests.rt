// Both memories through the same generic drivers: no driver knows which memory it has.
use crate::branches::Branches;
use crate::contents::{holds_exactly, remove_all};
use crate::fitting::Fitting;
use crate::key::{KeyRule, Prefix};
use crate::reader::Reader;
use crate::rule_memory::RuleMemory;
use crate::slots::Slots;
use rules::refusal::Refusal;
use rules::server::Server;
use std::process::Abort;
use std::test::Fail;

fn prefix(value: u32, length: u32) -> Prefix {
    Prefix { value, length }
}

fn rule(value: u32, length: u32, server: Server) -> KeyRule {
    KeyRule {
        prefix: prefix(value, length),
        server,
    }
}

// A capacity of 3: full at the fourth prefix, replacing goes on, and what a remove frees serves again.
fn fills<M: RuleMemory>(rt: &impl Abort, memory: &mut M) {
    assert_eq!(rt; memory.capacity(), 3);
    assert_eq!(rt; memory.put(rule(0, 0, Server::Two)), Ok(()));
    assert_eq!(rt; memory.put(rule(0, 1, Server::One)), Ok(()));
    assert_eq!(rt; memory.put(rule(0x8000_0000, 1, Server::One)), Ok(()));
    let fourth = rule(0x4000_0000, 2, Server::One);
    assert_eq!(rt; memory.put(fourth), Err(Refusal::MemoryFull));
    assert_eq!(rt; memory.held(fourth.prefix), None);
    assert_eq!(rt; memory.put(rule(0, 1, Server::Two)), Ok(()));
    assert_eq!(rt; memory.held(prefix(0, 1)), Some(Server::Two));
    assert_eq!(rt; memory.remove(prefix(0, 0)), Ok(true));
    assert_eq!(rt; memory.remove(prefix(0, 0)), Ok(false));
    assert_eq!(rt; memory.put(fourth), Ok(()));
    assert_eq!(rt; memory.held(prefix(0x8000_0000, 1)), Some(Server::One));
    assert_eq!(rt; memory.count(), 3);
}

// Prefixes of lengths 0, 1, 31 and 32 inside one another, written in a mixed order.
fn nests<M: RuleMemory>(rt: &impl Abort, memory: &mut M) {
    assert_eq!(rt; memory.put(rule(0xffff_fffe, 31, Server::One)), Ok(()));
    assert_eq!(rt; memory.put(rule(0, 0, Server::One)), Ok(()));
    assert_eq!(rt; memory.put(rule(0xffff_ffff, 32, Server::Two)), Ok(()));
    assert_eq!(rt; memory.put(rule(0x8000_0000, 1, Server::Two)), Ok(()));
    assert_eq!(rt; memory.look(0x7fff_ffff), Some(Server::One));
    assert_eq!(rt; memory.look(0x8000_0000), Some(Server::Two));
    assert_eq!(rt; memory.look(0xffff_fffd), Some(Server::Two));
    assert_eq!(rt; memory.look(0xffff_fffe), Some(Server::One));
    assert_eq!(rt; memory.look(0xffff_ffff), Some(Server::Two));
    assert_eq!(rt; memory.remove(prefix(0xffff_ffff, 32)), Ok(true));
    assert_eq!(rt; memory.look(0xffff_ffff), Some(Server::One));
    assert_eq!(rt; memory.remove(prefix(0, 0)), Ok(true));
    assert_eq!(rt; memory.look(0x7fff_ffff), None);
}

// A prefix that breaks its layout is refused ahead of a full memory, and is never held.
fn breaks<M: RuleMemory>(rt: &impl Abort, memory: &mut M, broken: Prefix) {
    let server = Server::One;
    let before = memory.count();
    let put = memory.put(KeyRule {
        prefix: broken,
        server,
    });
    assert_eq!(rt; put, Err(Refusal::BrokenLayout));
    assert_eq!(rt; memory.remove(broken), Err(Refusal::BrokenLayout));
    assert_eq!(rt; memory.held(broken), None);
    assert_eq!(rt; memory.count(), before);
}

// Exactly these rules, and no others.
fn compares<M: RuleMemory>(rt: &impl Abort, memory: &mut M) {
    let low = rule(0, 1, Server::One);
    let high = rule(0x8000_0000, 1, Server::Two);
    let other = rule(0x8000_0000, 1, Server::One);
    assert_eq!(rt; holds_exactly(memory, &[]), true);
    assert_eq!(rt; memory.put(low), Ok(()));
    assert_eq!(rt; memory.put(high), Ok(()));
    assert_eq!(rt; holds_exactly(memory, &[high, low]), true);
    assert_eq!(rt; holds_exactly(memory, &[low]), false);
    assert_eq!(rt; holds_exactly(memory, &[low, low]), false);
    assert_eq!(rt; holds_exactly(memory, &[low, other]), false);
    let gone = [low.prefix, prefix(1, 1), low.prefix];
    assert_eq!(rt; remove_all(memory, &gone), 1);
    assert_eq!(rt; holds_exactly(memory, &[high]), true);
}

// A new memory takes nothing, and is then fitted for each of the drivers.
fn drives<M: Fitting>(rt: &impl Abort, memory: &mut M, ceiling: u32) {
    assert_eq!(rt; memory.ceiling(), ceiling);
    assert_eq!(rt;
        memory.put(rule(0, 0, Server::One)),
        Err(Refusal::MemoryFull)
    );
    let above = ceiling.saturating_add(1);
    assert_eq!(rt; memory.fit(above), Err(Refusal::AboveCeiling));
    assert_eq!(rt; memory.fit(3), Ok(()));
    fills(rt, memory);
    breaks(rt, memory, prefix(1, 31));
    breaks(rt, memory, prefix(0, 33));
    breaks(rt, memory, prefix(0x8000_0000, 0));
    assert_eq!(rt; memory.fit(ceiling), Ok(()));
    assert_eq!(rt; memory.count(), 0);
    nests(rt, memory);
    assert_eq!(rt; memory.fit(2), Ok(()));
    compares(rt, memory);
}

#[test]
fn slots(rt: HostRuntime) -> Result<(), Fail> {
    drives(&rt, &mut Slots::new(rt.alloc())?, 1024);
    Ok(())
}

#[test]
fn branches(rt: HostRuntime) -> Result<(), Fail> {
    drives(&rt, &mut Branches::new(rt.alloc())?, 256);
    Ok(())
}

// The ceiling is reached: 1,024 rules of 32 bits in slots.
#[test]
fn slots_to_the_ceiling(rt: HostRuntime) -> Result<(), Fail> {
    let mut memory = Slots::new(rt.alloc())?;
    assert_eq!(rt; memory.fit(1024), Ok(()));
    for key in 0..1024u32 {
        assert_eq!(rt; memory.put(rule(key, 32, Server::Two)), Ok(()));
    }
    assert_eq!(rt;
        memory.put(rule(0, 0, Server::One)),
        Err(Refusal::MemoryFull)
    );
    assert_eq!(rt; memory.look(1023), Some(Server::Two));
    assert_eq!(rt; memory.look(1024), None);
    Ok(())
}
