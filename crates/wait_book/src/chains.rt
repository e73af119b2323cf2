//! The chains of a book: the waiters on each condition, the waiting signallers, and the notified processes. The nodes
//! of all chains are in one slab, and each holds the key of the next node.
ghost use Rattle.std.specs.Prelude.{◌≡◌, ◌<◌, ◌≤◌, ◌==◌, ℕ, [], ◌∷◌, ◌++◌, List, Option, Some, None, is_some};
ghost use Rattle.std.specs.Prelude.{◌≢◌, ◌↔◌, IsTrue};
ghost use Rattle.std.specs.Prelude.{if◌then◌else◌, not, IfOk, IfSome, MatchOption};
ghost use Rattle.std.specs.List.Sorted.{IsNonDecreasing};
ghost use Rattle.slab.specs.Slab.{ContainsKey};
ghost use Rattle.wait_book.specs.declared.chains.Link.{Link};
ghost use Rattle.wait_book.specs.Contents.{times};
ghost use Rattle.wait_book.specs.Lists.{CallsFirst, IsJoined, IsPut, IsTaken, TakesOut, first_link, higher, keys_of};
ghost use Rattle.wait_book.specs.Lists.{last_key, list_at, list_put, lower, places_below, places_in, priorities, total};
ghost use Rattle.wait_book.specs.Chains.{IsKeyPut, IsLinked};

mod links;

use crate::book::{MOST_CONDITIONS, MOST_PLACES};
pub(crate) use links::Links;
use slab::Slab;
use std::alloc::{AllocError, Global};
use std::marker::Model;

/// The index of the signallers' chain: it follows the chains of the conditions.
pub(crate) const SIGNALLERS: usize = MOST_CONDITIONS;

/// The index of the chain of the notified: it follows the signallers' chain.
pub(crate) const CALLED: usize = MOST_CONDITIONS + 1;

/// The largest number of nodes for which the slab may have room, so that each key fits a byte.
const MOST_KEYS: usize = 256;

/// The number of chains: one for each possible condition, the signallers' and that of the notified.
pub(crate) const CHAINS: usize = MOST_CONDITIONS + 2;

/// An entry of a chain: the key of its node, its place, and the condition and the priority of its wait. In the
/// signallers' chain the condition is that of the signal, and the priority is 0.
#[derive(Clone, Copy)]
pub(crate) struct Link {
    pub(crate) key: u8,
    pub(crate) place: usize,
    pub(crate) condition: usize,
    pub(crate) priority: u64,
}

// An entry of a chain as the slab stores it, with the key of the next node. What fits a byte is a byte, here and in
// `Chain`, so that a step writes few cache lines. The fields are in this order because a node with the widest field
// first has 16 bytes.
#[derive(Clone, Copy)]
struct Node {
    priority: u64,
    place: u8,
    condition: u8,
    next: Option<u8>,
}

// A chain, by the keys of its first node and of its last; both are `None` if it is empty.
#[derive(Clone, Copy)]
struct Chain {
    first: Option<u8>,
    last: Option<u8>,
}

/// All chains of a book, the slab with their nodes, and for each place a mark, which is true if it is in a chain.
#[derive(Drop)]
pub(crate) struct Chains {
    chains: [Chain; CHAINS],
    nodes: Slab<Node>,
    standing: [bool; MOST_PLACES],
}

impl Model for Chains {
    ghost use Rattle.wait_book.specs.Lists.{Lists};

    ghost Value = { Lists };

    ghost use Rattle.wait_book.specs.Linked.{view_of, IsGood};

    ghost view = { view_of };

    ghost invariant = { IsGood };
}

// Returns the key that follows the node `behind` in its chain, or `first` if `behind` is `None`.
fn next_of(nodes: &Slab<Node>, first: Option<u8>, behind: Option<u8>) -> Option<u8>
    requires { IfSome behind (ContainsKey nodes.now) }
    ensures { (before : List Link) (to : Option ℕ) → IsLinked nodes.now first before to
        → behind ≡ last_key before → result ≡ to }
{
    match behind {
        Some(key) => nodes[key as usize].next,
        None => first,
    }
}

// Makes `next` follow the node `behind`; if `next` is `None`, the chain ends there. If `behind` is `None`, makes `next`
// the first key, and changes no node. Returns the key of the first node after that.
fn set_next(
    nodes: &mut Slab<Node>,
    first: Option<u8>,
    behind: Option<u8>,
    next: Option<u8>,
) -> Option<u8>
    requires { IfSome behind (ContainsKey nodes.old) }
    ensures { IsKeyPut first behind next result nodes.old nodes.new }
{
    match behind {
        Some(before) => {
            nodes[before as usize].next = next;
            first
        }
        None => next,
    }
}

// Returns the key of a chain's last node after a change: `last`, as it was, if the node `next` follows the change; else
// `otherwise`.
fn last_after(next: Option<u8>, last: Option<u8>, otherwise: Option<u8>) -> Option<u8>
    ensures { result ≡ (if is_some next then last else otherwise) }
{
    match next {
        Some(_) => last,
        None => otherwise,
    }
}

// Removes the first key from a chain: `next` becomes its first. If that is `None`, the chain is empty.
fn move_on(chain: &mut Chain, next: Option<u8>)
    ensures first { chain.new.first ≡ next }
    ensures last { chain.new.last ≡ (if is_some next then chain.old.last else None) }
{
    chain.first = next;
    if next.is_none() {
        chain.last = None;
    }
}

impl Chains {
    /// Creates empty chains with memory for `places` nodes. Refuses if the allocation failed, or came with room for
    /// more than `MOST_KEYS` nodes.
    pub(crate) fn make(alloc: Global, places: usize) -> Result<Chains, AllocError>
        ensures empty { IfOk result (λ q. (c : ℕ) → list_at q c ≡ []) }
        ensures room { IfOk result (λ q. places ≤ q.room) }
    {
        let nodes = Slab::with_capacity(alloc, places)?;
        if nodes.capacity() > MOST_KEYS {
            // Not seen to happen. A slab promises only that the room is at least what was asked for, and a key above
            // 255 doesn't fit a byte.
            return Err(AllocError);
        }
        Ok(Chains {
            chains: [Chain {
                first: None,
                last: None,
            }; CHAINS],
            nodes,
            standing: [false; MOST_PLACES],
        })
    }

    /// Returns an iterator over the links of `chain`, from the first to the last.
    pub(crate) fn on(&self, chain: usize) -> Links<'_>
        requires { chain < CHAINS }
        ensures { result ≡ list_at self.now chain }
    {
        Links {
            nodes: &self.nodes,
            at: self.chains[chain].first,
        }
    }

    /// Returns the first link of `chain`, or `None` if it is empty.
    pub(crate) fn first(&self, chain: usize) -> Option<Link>
        requires { chain < CHAINS }
        ensures { result ≡ first_link (list_at self.now chain) }
    {
        self.on(chain).next()
    }

    /// Returns true if `place` is in a chain. Reads its mark alone.
    pub(crate) fn holds(&self, place: usize) -> bool
        ensures { not result ≡ (times place (places_below CHAINS (list_at self.now)) == 0) }
    {
        matches!(self.standing.get(place), Some(true))
    }

    // Returns the key of the node after which a wait of `priority` is inserted: the last whose priority isn't above it,
    // or `None` if there is none. Walks `chain` from the first, up to the first whose priority is above.
    fn walk_behind(&self, chain: usize, priority: u64) -> Option<u8>
        requires { chain < CHAINS }
        ensures { result ≡ last_key (lower priority (list_at self.now chain)) }
    {
        let mut behind = None;
        for link in self.on(chain) {
            if link.priority > priority {
                return behind;
            }
            behind = Some(link.key);
        }
        behind
    }

    // Returns the same key as `walk_behind`, in one step if the priority of the last node of `chain` isn't above
    // `priority`. Requires that the priorities in `chain` don't fall.
    fn behind(&self, chain: usize, priority: u64) -> Option<u8>
        requires chain { chain < CHAINS }
        requires ordered { IsNonDecreasing (priorities (list_at self.now chain)) }
        ensures { result ≡ last_key (lower priority (list_at self.now chain)) }
    {
        let last = self.chains[chain].last?;
        if self.nodes[last as usize].priority <= priority {
            return Some(last);
        }
        self.walk_behind(chain, priority)
    }

    // Inserts `place`, which is in no chain, into `chain`: after the node `behind`, or first if that is `None`.
    // Inlined, as `append` and `take_first` are: as calls they make a step of a book a tenth longer.
    #[inline(always)]
    fn link(
        &mut self,
        chain: usize,
        behind: Option<u8>,
        place: usize,
        condition: usize,
        priority: u64,
    )
        requires chain { chain < CHAINS }
        requires condition { chain < SIGNALLERS → condition ≡ chain }
        requires few { condition < CHAINS }
        requires place { place < MOST_PLACES }
        requires apart { times place (places_below CHAINS (list_at self.old)) ≡ 0 }
        requires room { total self.old < self.old.room }
        requires behind { (before after : List Link)
            × (list_at self.old chain ≡ before ++ after) × (behind ≡ last_key before) }
        ensures { (before after : List Link)
            → list_at self.old chain ≡ before ++ after → behind ≡ last_key before
            → IsPut chain before after place condition priority self.old self.new }
    {
        let Chain { first, last } = self.chains[chain];
        let next = next_of(&self.nodes, first, behind);
        let node = Node {
            place: place as u8,
            condition: condition as u8,
            priority,
            next,
        };
        let key = self.nodes.insert_reserved(node);
        let key = key as u8;
        let first = set_next(&mut self.nodes, first, behind, Some(key));
        let last = last_after(next, last, Some(key));
        self.chains[chain] = Chain { first, last };
        self.standing[place] = true;
    }

    /// Appends `place`, which is in no chain, to `chain`, which is that of the signallers or of the notified.
    #[inline(always)]
    pub(crate) fn append(&mut self, chain: usize, place: usize, condition: usize, priority: u64)
        requires chain { chain < CHAINS }
        requires no_condition { SIGNALLERS ≤ chain }
        requires few { condition < CHAINS }
        requires place { place < MOST_PLACES }
        requires apart { times place (places_below CHAINS (list_at self.old)) ≡ 0 }
        requires room { total self.old < self.old.room }
        ensures { IsPut chain (list_at self.old chain) [] place condition priority self.old self.new }
    {
        let behind = self.chains[chain].last;
        self.link(chain, behind, place, condition, priority);
    }

    /// Inserts `place`, which is in no chain, into `chain`, whose priorities don't fall: after the links whose priority
    /// is at most `priority`, before the others. `chain` is also the condition that the link records.
    pub(crate) fn insert(&mut self, chain: usize, place: usize, priority: u64)
        requires chain { chain < CHAINS }
        requires place { place < MOST_PLACES }
        requires apart { times place (places_below CHAINS (list_at self.old)) ≡ 0 }
        requires room { total self.old < self.old.room }
        requires ordered { IsNonDecreasing (priorities (list_at self.old chain)) }
        ensures { let list = list_at self.old chain in
            IsPut chain (lower priority list) (higher priority list) place chain priority self.old self.new }
    {
        let behind = self.behind(chain, priority);
        self.link(chain, behind, place, chain, priority);
    }

    /// Removes the first link of `chain` and returns its place. If the chain is empty, changes nothing and returns
    /// `None`.
    #[inline(always)]
    pub(crate) fn take_first(&mut self, chain: usize) -> Option<usize>
        requires { chain < CHAINS }
        ensures { MatchOption result
            ((list_at self.old chain ≡ []) × (self.new ≡ self.old))
            (λ place. IsTaken chain place self.old self.new) }
    {
        let first = self.chains[chain].first;
        let node = self.nodes.remove(first? as usize);
        move_on(&mut self.chains[chain], node.next);
        let place = node.place as usize;
        self.standing[place] = false;
        Some(place)
    }

    /// Returns true if `place` is in `chain`. Walks the chain from the first, up to that link.
    pub(crate) fn has(&self, chain: usize, place: usize) -> bool
        requires { chain < CHAINS }
        ensures { IsTrue result ↔ (times place (places_in (list_at self.now chain)) ≢ 0) }
    {
        self.find(chain, place).is_some()
    }

    // Finds the node of `place` in `chain`. Returns the key of the node before it, which is `None` if it is the first,
    // and its own key. Returns `None` if `place` isn't in `chain`. Walks `chain` from the first, up to that node.
    fn find(&self, chain: usize, place: usize) -> Option<(Option<u8>, u8)>
        requires { chain < CHAINS }
        ensures { result ≡ keys_of place None (list_at self.now chain) }
    {
        let mut behind = None;
        for link in self.on(chain) {
            if link.place == place {
                return Some((behind, link.key));
            }
            behind = Some(link.key);
        }
        None
    }

    // Removes the node `key` from `chain`, in which it follows the node `behind`, or is the first if that is `None`.
    fn unlink(&mut self, chain: usize, behind: Option<u8>, key: u8)
        requires chain { chain < CHAINS }
        requires behind { (before after : List Link) × (x : Link)
            × (list_at self.old chain ≡ before ++ x ∷ after) × (behind ≡ last_key before) × (x.key ≡ key) }
        ensures lists { (before after : List Link) (x : Link)
            → list_at self.old chain ≡ before ++ x ∷ after → behind ≡ last_key before → x.key ≡ key
            → (d : ℕ) → list_at self.new d ≡ list_put chain (before ++ after) (list_at self.old) d }
        ensures room { self.new.room ≡ self.old.room }
    {
        let Chain { first, last } = self.chains[chain];
        let node = self.nodes.remove(key as usize);
        let first = set_next(&mut self.nodes, first, behind, node.next);
        let last = last_after(node.next, last, behind);
        self.chains[chain] = Chain { first, last };
        self.standing[node.place as usize] = false;
    }

    /// Removes the link of `place` from `chain`, and returns true. If `place` isn't in the chain, changes nothing and
    /// returns false. Walks the chain from the first, up to that link.
    pub(crate) fn take(&mut self, chain: usize, place: usize) -> bool
        requires { chain < CHAINS }
        ensures { TakesOut result chain place self.old self.new }
    {
        let Some((behind, key)) = self.find(chain, place) else {
            return false;
        };
        self.unlink(chain, behind, key);
        true
    }

    /// Moves the first link of `chain`, that of a condition, to the end of the chain of the notified. Its node keeps
    /// its key. Returns false if the chain is empty, and then changes nothing; else returns true.
    #[inline(always)] // it has one caller
    pub(crate) fn call_first(&mut self, chain: usize) -> bool
        requires { chain < SIGNALLERS }
        ensures { CallsFirst result chain self.old self.new }
    {
        let Some(key) = self.chains[chain].first else {
            return false;
        };
        let next = self.nodes[key as usize].next.take();
        move_on(&mut self.chains[chain], next);
        let called = self.chains[CALLED];
        let first = set_next(&mut self.nodes, called.first, called.last, Some(key));
        self.chains[CALLED] = Chain {
            first,
            last: Some(key),
        };
        true
    }

    /// Moves all links of `chain`, that of a condition, to the end of the chain of the notified, in their order. Sets
    /// the next key of one node at most, however many links there are.
    pub(crate) fn call_all(&mut self, chain: usize)
        requires { chain < SIGNALLERS }
        ensures { IsJoined chain self.old self.new }
    {
        let Chain { first, last } = self.chains[chain];
        let Some(key) = first else {
            return;
        };
        let called = self.chains[CALLED];
        let first = set_next(&mut self.nodes, called.first, called.last, Some(key));
        self.chains[CALLED] = Chain { first, last };
        self.chains[chain] = Chain {
            first: None,
            last: None,
        };
    }
}
