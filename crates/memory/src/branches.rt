// Branches: up to 256 rules in a binary trie over the key's bits. All nodes are made with the branches: 33 for each rule and 33 more, so that a put
// always finds the nodes that it needs, and a remove gives back those that it emptied.
ghost use Rattle.std.specs.Prelude.{◌≡◌, ◌+◌, ◌<◌, ◌≤◌, true, false, IfOk};
ghost use Rattle.memory.specs.Holding.{Counted};
ghost use Rattle.memory.specs.Writes.{Fresh};
ghost use Rattle.memory.specs.Tries.{in_trie, trie_formed, nodes, rules, spares, neat};
ghost use Rattle.std.proofs.Common.{le_trans, lit≤};

use crate::fitting::Fitting;
use crate::key::{KeyRule, Prefix};
use crate::path::Path;
use crate::reader::Reader;
use crate::rule_memory::RuleMemory;
use crate::trie::{Trie, spare_nodes};
use rules::refusal::Refusal;
use rules::server::Server;
use std::alloc::{AllocError, Global};

// The most rules that branches can be fitted for.
const CEILING: u32 = 256;

#[derive(Drop)]
pub struct Branches {
    root: Trie,
    spare: Trie,
    count: u32,
    capacity: u32,
    ghost tidy: { neat root 32 ≡ true },
    ghost stocked: { nodes root + spares spare ≡ 8481 },
    ghost ruled: { rules root ≡ count },
    ghost counted: { ∥ Counted (in_trie root) count ∥₁ },
    ghost few: { count ≤ 256 },
    ghost fitted: { capacity ≤ 256 },
}

impl Branches {
    // Branches with no rule and no capacity.
    #[tactic(auto, using(crate::proofs::TrieLaws::empties))]
    pub fn new(heap: Global) -> Result<Branches, AllocError>
        ensures { IfOk result (λ b. Fresh (in_trie b.root) b.count b.capacity) }
    {
        let spare = spare_nodes(heap, 8481)?;
        Ok(Branches {
            root: Trie::new(),
            spare,
            count: 0,
            capacity: 0,
        })
    }
}

impl Reader for Branches {
    ghost held_at = { λ b. in_trie b.root };

    ghost size = { λ b. b.count };

    ghost layout = { λ m v l e. trie_formed m.root v l e };

    ghost counted = { λ m. m.counted };

    fn look(&self, key: u32) -> Option<Server> {
        self.root.look(key)
    }

    fn held(&self, prefix: Prefix) -> Option<Server> {
        self.root.held(Path::of(prefix)?)
    }

    fn count(&self) -> u32 {
        self.count
    }
}

impl RuleMemory for Branches {
    ghost limit = { λ b. b.capacity };

    ghost most = { λ m. le_trans m.fitted (lit≤ tt) };

    fn capacity(&self) -> u32 {
        self.capacity
    }

    fn put(&mut self, rule: KeyRule) -> Result<(), Refusal> {
        let Some(path) = Path::of(rule.prefix) else {
            return Err(Refusal::BrokenLayout);
        };
        let fresh = self.root.held(path).is_none();
        if fresh && self.count >= self.capacity {
            return Err(Refusal::MemoryFull);
        }
        self.root.insert(&mut self.spare, path, rule.server);
        self.count += u32::from(fresh);
        Ok(())
    }

    fn remove(&mut self, prefix: Prefix) -> Result<bool, Refusal> {
        let Some(path) = Path::of(prefix) else {
            return Err(Refusal::BrokenLayout);
        };
        if self.root.held(path).is_none() {
            return Ok(false);
        }
        self.root.erase(&mut self.spare, path);
        self.count -= 1;
        Ok(true)
    }
}

impl Fitting for Branches {
    ghost most = { λ _. 256 };

    fn ceiling(&self) -> u32 {
        CEILING
    }

    #[tactic(auto, using(crate::proofs::TrieLaws::empties))]
    fn fit(&mut self, capacity: u32) -> Result<(), Refusal> {
        if capacity > CEILING {
            return Err(Refusal::AboveCeiling);
        }
        self.root.release(&mut self.spare);
        self.count = 0;
        self.capacity = capacity;
        Ok(())
    }
}

#[cfg(test)]
mod tests {
    use super::*;
    use std::test::Fail;

    // The length of a chain of spare nodes.
    fn chain_length(chain: &Trie) -> u32 {
        let mut trie = chain;
        let mut length = 0u32;
        while let Some(node) = &trie.0 {
            length = length.saturating_add(1);
            trie = &node.zero;
        }
        length
    }

    // Rounds of 256 rules of 32 bits, put and removed: far more nodes than there are, so that each has to come back.
    #[test]
    fn nodes_come_back(rt: HostRuntime) -> Result<(), Fail> {
        let mut memory = Branches::new(rt.alloc())?;
        assert_eq!(rt; memory.fit(256), Ok(()));
        for round in 0..40u32 {
            for i in 0..256u32 {
                let prefix = Prefix {
                    value: (i << 24) + round,
                    length: 32,
                };
                let server = Server::Two;
                assert_eq!(rt; memory.put(KeyRule { prefix, server }), Ok(()));
            }
            assert_eq!(rt; memory.count(), 256);
            for i in 0..256u32 {
                let prefix = Prefix {
                    value: (i << 24) + round,
                    length: 32,
                };
                assert_eq!(rt; memory.remove(prefix), Ok(true));
            }
        }
        assert!(rt; memory.root.0.is_none());
        assert_eq!(rt; chain_length(&memory.spare), 8481);
        Ok(())
    }
}
