//! The iterator along a chain.
ghost use Rattle.std.specs.Iterator.{YieldsFirst, item_count};

use super::{Link, Node};
use slab::Slab;
use std::marker::Model;

/// Iterates over the links of a chain. Its model is the list of the links that it hasn't yielded yet.
#[derive(Drop)]
pub(crate) struct Links<'a> {
    pub(super) nodes: &'a Slab<Node>,
    // The key of the node that it yields next, or `None` at the end of the chain.
    pub(super) at: Option<u8>,
}

impl<'a> Model for Links<'a> {
    ghost use Rattle.std.specs.Prelude.{List};
    ghost use Rattle.wait_book.specs.declared.chains.Link.{Link};

    ghost Value = { List Link };

    ghost use Rattle.wait_book.specs.Chains.{walked, Ends};

    ghost view = { λ a. walked a.nodes.now a.at };

    ghost invariant = { λ a. Ends a.nodes.now a.at };
}

impl<'a> Iterator for Links<'a> {
    type Item = Link;

    ghost next_gives = { YieldsFirst (λ rest. rest) };

    ghost remaining = { item_count (λ rest. rest) };

    fn next(&mut self) -> Option<Link> {
        let key = self.at?;
        let node = &self.nodes[key as usize];
        self.at = node.next;
        Some(Link {
            key,
            place: node.place as usize,
            condition: node.condition as usize,
            priority: node.priority,
        })
    }
}
