// Slots: up to 1,024 rules in rows, longer prefixes ahead of shorter ones, and the first match answers. All rows are reserved when the slots are
// made, so that no later call can fail for want of memory.
ghost use Rattle.std.specs.Prelude.{◌≡◌, ℕ, ◌+◌, ◌<◌, ◌≤◌, true, IfOk, Some, None, position, vec_len, vec_capacity};
ghost use Rattle.std.proofs.Common.{sym, le_trans, lit≤};
ghost use Rattle.memory.specs.Keys.{formed};
ghost use Rattle.memory.specs.Holding.{apart, at};
ghost use Rattle.memory.specs.Writes.{written, Fresh};
ghost use Rattle.memory.specs.Rows.{row_prefixes, falling, in_rows, named, row_of, place_of, matches};
ghost use Rattle.memory.specs.RowLaws.{rows_formed, rows_counted};

use crate::fitting::Fitting;
use crate::key::{KeyRule, Prefix, breadth};
use crate::reader::Reader;
use crate::row::Row;
use crate::rule_memory::RuleMemory;
use rules::refusal::Refusal;
use rules::server::Server;
use std::alloc::{AllocError, Global};

// The most rules that slots can be fitted for.
const CEILING: u32 = 1024;

#[derive(Drop)]
pub struct Slots {
    rows: Vec<Row>,
    capacity: u32,
    ghost ordered: { falling 32 (row_prefixes rows.items) ≡ true },
    ghost once: { apart (row_prefixes rows.items) ≡ true },
    ghost few: { vec_len rows ≤ 1024 },
    ghost reserved: { 1024 ≤ vec_capacity rows },
    ghost fitted: { capacity ≤ 1024 },
}

impl Row {
    fn new(rule: KeyRule) -> Row
        requires { formed rule.prefix.value rule.prefix.length ≡ true }
        ensures { result.rule ≡ rule }
    {
        let end = u64::from(rule.prefix.value) + breadth(rule.prefix.length);
        // Kept as a cast, here and in `count`: it is proved to lose nothing, and a conversion that can fail would be unwrapped.
        Row {
            rule,
            last: (end - 1) as u32,
        }
    }

    fn covers(&self, key: u32) -> bool
        ensures { result ≡ matches self.now key }
    {
        self.rule.prefix.value <= key && key <= self.last
    }
}

impl Slots {
    // Slots with no rule and no capacity.
    pub fn new(heap: Global) -> Result<Slots, AllocError>
        ensures { IfOk result (λ s. Fresh (in_rows s.rows.items) (vec_len s.rows) s.capacity) }
    {
        let rows = Vec::with_capacity(heap, CEILING as usize)?;
        Ok(Slots { rows, capacity: 0 })
    }

    // The row of a prefix, if it has one.
    fn row_of(&self, prefix: Prefix) -> Option<usize>
        ensures { result ≡ position (λ r. named r prefix.value prefix.length) self.now.rows.items }
    {
        self.rows.iter().position(|row| row.rule.prefix == prefix)
    }

    // The row ahead of which a prefix of this length comes.
    fn place_of(&self, length: u32) -> usize
        ensures { result ≡ place_of self.now.rows.items length }
    {
        self.rows
            .partition_point(|row| row.rule.prefix.length > length)
    }

    // Another rule in the row of its prefix. That the capacity stays is kept as a clause of this and the next two: it is what a call leaves, and no fact
    // of the rows.
    fn replace(&mut self, i: usize, row: Row)
        requires row { i ≡ row_of self.old.rows.items row.rule.prefix.value row.rule.prefix.length }
        requires within { i < vec_len self.old.rows }
        ensures holds { (v l : ℕ) → in_rows self.new.rows.items v l ≡ written (in_rows self.old.rows.items) row.rule.prefix (Some row.rule.server) v l }
        ensures len { vec_len self.new.rows ≡ vec_len self.old.rows }
        ensures capacity { self.new.capacity ≡ self.old.capacity }
    {
        self.rows[i] = row;
    }

    // One row more, behind the longer prefixes.
    fn add(&mut self, row: Row)
        requires fresh { at (in_rows self.old.rows.items) row.rule.prefix ≡ None }
        requires room { vec_len self.old.rows < self.old.capacity }
        ensures holds { (v l : ℕ) → in_rows self.new.rows.items v l ≡ written (in_rows self.old.rows.items) row.rule.prefix (Some row.rule.server) v l }
        ensures len { vec_len self.new.rows ≡ vec_len self.old.rows + 1 }
        ensures capacity { self.new.capacity ≡ self.old.capacity }
    {
        let i = self.place_of(row.rule.prefix.length);
        self.rows.insert(i, row).unwrap();
    }

    // One row less.
    fn strike(&mut self, i: usize, prefix: Prefix)
        requires row { i ≡ row_of self.old.rows.items prefix.value prefix.length }
        requires within { i < vec_len self.old.rows }
        ensures holds { (v l : ℕ) → in_rows self.new.rows.items v l ≡ written (in_rows self.old.rows.items) prefix None v l }
        ensures len { vec_len self.new.rows + 1 ≡ vec_len self.old.rows }
        ensures capacity { self.new.capacity ≡ self.old.capacity }
    {
        self.rows.remove(i);
    }
}

impl Reader for Slots {
    ghost held_at = { λ s. in_rows s.rows.items };

    ghost size = { λ s. vec_len s.rows };

    ghost layout = { λ m v l e. rows_formed m.rows.items v l e };

    ghost counted = { λ m. ∣ rows_counted m.rows.items (vec_len m.rows) (sym m.rows.ok.0) m.once ∣₁ };

    fn look(&self, key: u32) -> Option<Server> {
        // Kept as a loop: `find` took three times as long over a thousand rows.
        for row in self.rows.iter() {
            if row.covers(key) {
                return Some(row.rule.server);
            }
        }
        None
    }

    fn held(&self, prefix: Prefix) -> Option<Server> {
        let i = self.row_of(prefix)?;
        Some(self.rows[i].rule.server)
    }

    fn count(&self) -> u32 {
        self.rows.len() as u32
    }
}

impl RuleMemory for Slots {
    ghost limit = { λ s. s.capacity };

    ghost most = { λ m. le_trans m.fitted (lit≤ tt) };

    fn capacity(&self) -> u32 {
        self.capacity
    }

    fn put(&mut self, rule: KeyRule) -> Result<(), Refusal> {
        if !rule.prefix.is_well_formed() {
            return Err(Refusal::BrokenLayout);
        }
        let row = Row::new(rule);
        if let Some(i) = self.row_of(rule.prefix) {
            self.replace(i, row);
            return Ok(());
        }
        if self.count() >= self.capacity {
            return Err(Refusal::MemoryFull);
        }
        self.add(row);
        Ok(())
    }

    fn remove(&mut self, prefix: Prefix) -> Result<bool, Refusal> {
        if !prefix.is_well_formed() {
            return Err(Refusal::BrokenLayout);
        }
        if let Some(i) = self.row_of(prefix) {
            self.strike(i, prefix);
            return Ok(true);
        }
        Ok(false)
    }
}

impl Fitting for Slots {
    ghost most = { λ _. 1024 };

    fn ceiling(&self) -> u32 {
        CEILING
    }

    fn fit(&mut self, capacity: u32) -> Result<(), Refusal> {
        if capacity > CEILING {
            return Err(Refusal::AboveCeiling);
        }
        self.rows.clear();
        self.capacity = capacity;
        Ok(())
    }
}
