// A binary trie over the bits of a key, the highest first, and a chain of spare nodes.
ghost use Rattle.std.specs.Prelude.{◌≡◌, ◌+◌, ◌-◌, ◌*◌, ◌<◌, ◌≤◌, true, false, not, IfOk, Some, None};
ghost use Rattle.std.specs.Borrow.{sem};
ghost use Rattle.memory.specs.Lending.{LendsChild};
ghost use Rattle.memory.specs.Tries.{child, at_bits, look_in, spares, nodes, is_node, bare, neat, ready, Opened, Inserted, Pruned, Erased};

use crate::path::Path;
use rules::server::Server;
use std::alloc::{AllocError, Global};
use std::mem::swap;

// A trie is empty or has a first node.
#[cycle(trie)]
pub(crate) struct Trie(pub(crate) Option<Box<Node>>);

// A node has the server that is held at its prefix, if one is, and what lies below the bit 0 and below the bit 1.
#[cycle(trie)]
#[derive(Drop)]
pub(crate) struct Node {
    server: Option<Server>,
    pub(crate) zero: Trie,
    one: Trie,
}

// A chain of spare nodes is long, so it is let go by a loop along the bit 0.
impl Drop for Trie {
    fn drop(mut self) {
        loop {
            let Trie(first) = self;
            match first {
                None => return,
                Some(node) => {
                    let Node { zero, one, .. } = Box::into_inner(node);
                    drop(one);
                    self = zero;
                }
            }
        }
    }
}

impl Node {
    // What lies below a bit.
    fn child(&self, bit: bool) -> &Trie
        ensures { result.now ≡ child self.now bit }
    {
        if bit { &self.one } else { &self.zero }
    }

    // The same, to write to.
    fn child_mut(&mut self, bit: bool) -> &mut Trie
        ensures* writes_back { sem 𝓛 (LendsChild self.entry bit result) }
        ensures value { result.now ≡ child self.old bit }
    {
        if bit { &mut self.one } else { &mut self.zero }
    }
}

// A chain of `count` spare nodes.
pub(crate) fn spare_nodes(heap: Global, count: usize) -> Result<Trie, AllocError>
    ensures { IfOk result (λ t. spares t ≡ count) }
{
    let mut chain = Trie::new();
    for made in 0..count {
        let node = Node {
            server: None,
            zero: chain,
            one: Trie::new(),
        };
        chain = Trie(Some(Box::new(heap, node)?));
    }
    Ok(chain)
}

impl Trie {
    // An empty trie.
    pub(crate) fn new() -> Trie
        ensures { is_node result ≡ false }
    {
        Trie(None)
    }

    // The server at the end of a path.
    pub(crate) fn held(&self, path: Path) -> Option<Server>
        ensures { result ≡ at_bits self.now path.height path.length path.value }
    {
        let node = self.0.as_ref()?;
        match path.split_first() {
            None => node.server,
            Some((bit, rest)) => node.child(bit).held(rest),
        }
    }

    // The server of the longest prefix of a key.
    pub(crate) fn look(&self, key: u32) -> Option<Server>
        ensures { result ≡ look_in self.now 32 key }
    {
        let mut trie = self;
        let mut best = None;
        let mut path = Path::whole(key);
        while let Some(node) = &trie.0 {
            best = node.server.or(best);
            let Some((bit, rest)) = path.split_first() else {
                return best;
            };
            path = rest;
            trie = node.child(bit);
        }
        best
    }

    // An empty trie becomes a bare node off the chain.
    fn take_node(&mut self, chain: &mut Trie)
        requires empty { is_node self.old ≡ false }
        requires some { 0 < spares chain.old }
        ensures node { bare self.new ≡ true }
        ensures chain { spares chain.new + 1 ≡ spares chain.old }
    {
        swap(self, chain);
        if let Some(node) = &mut self.0 {
            node.server = None;
            node.one = Trie::new();
            swap(&mut node.zero, chain);
        }
    }

    // A bare node goes back to the chain.
    fn give_node(&mut self, chain: &mut Trie)
        requires { bare self.old ≡ true }
        ensures empty { is_node self.new ≡ false }
        ensures chain { spares chain.new ≡ spares chain.old + 1 }
    {
        if let Some(node) = &mut self.0 {
            swap(&mut node.zero, chain);
            swap(self, chain);
        }
    }

    fn is_empty(&self) -> bool
        ensures { result ≡ not (is_node self.now) }
    {
        self.0.is_none()
    }

    fn is_bare(&self) -> bool
        ensures { result ≡ bare self.now }
    {
        self.0.as_ref().is_some_and(|node| node.server.is_none()
            && node.zero.is_empty()
            && node.one.is_empty())
    }

    // An empty trie becomes a node, any other is one.
    fn open(&mut self, chain: &mut Trie)
        requires { 0 < spares chain.old }
        ensures { Opened self.old self.new chain.old chain.new }
    {
        if self.is_empty() {
            self.take_node(chain);
        }
    }

    // A bare node is given back, any other stays.
    fn prune(&mut self, chain: &mut Trie)
        ensures { Pruned self.old self.new chain.old chain.new }
    {
        if self.is_bare() {
            self.give_node(chain);
        }
    }

    // Holds a server at the end of a path; nodes come off the chain.
    pub(crate) fn insert(&mut self, chain: &mut Trie, path: Path, server: Server)
        requires { path.length < spares chain.old }
        ensures { Inserted self.old self.new chain.old chain.new path.height path.length path.value server }
    {
        self.open(chain);
        if let Some(node) = &mut self.0 {
            match path.split_first() {
                None => node.server = Some(server),
                Some((bit, rest)) => node.child_mut(bit).insert(chain, rest, server),
            }
        }
    }

    // Holds nothing at the end of a path; bare nodes below the first go back to the chain.
    #[cycle(erase)]
    fn clear(&mut self, chain: &mut Trie, path: Path)
        ensures { Erased self.old self.new chain.old chain.new path.height path.length path.value ready }
    {
        if let Some(node) = &mut self.0 {
            match path.split_first() {
                None => node.server = None,
                Some((bit, rest)) => node.child_mut(bit).erase(chain, rest),
            }
        }
    }

    // Holds nothing at the end of a path; bare nodes go back to the chain.
    #[cycle(erase)]
    pub(crate) fn erase(&mut self, chain: &mut Trie, path: Path)
        ensures { Erased self.old self.new chain.old chain.new path.height path.length path.value neat }
    {
        self.clear(chain, path);
        self.prune(chain);
    }

    // All nodes go back to the chain.
    pub(crate) fn release(&mut self, chain: &mut Trie)
        ensures empty { is_node self.new ≡ false }
        ensures chain { spares chain.new ≡ spares chain.old + nodes self.old }
    {
        if let Some(node) = &mut self.0 {
            node.zero.release(chain);
            node.one.release(chain);
            node.server = None;
            self.give_node(chain);
        }
    }
}
