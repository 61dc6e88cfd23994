//! Nodes: places, and the calls that led to them.
ghost use Rattle.std.specs.Prelude.{◌≡◌, ◌++◌, [], ◌∷◌, IfOk, OnOk, OnErr, length};
ghost use Rattle.er_binary.specs.Nodes.{node_at, place_of, way_out, way_to};

use crate::names::Put;
use std::alloc::{AllocError, Global};
use std::marker::Model;

// The most places that are told of an event: its own, and those of 64 calls.
const MOST_PLACES: u32 = 65;

/// A place, the node of the call that it is in or 0, and the node whose place is shown for this one.
#[derive(Clone, Copy)]
pub struct Node {
    pub caller: u64,
    pub shown: u64,
    pub place: u32,
}

const NO_NODE: Node = Node {
    caller: 0,
    shown: 0,
    place: 0,
};

/// Nodes, numbered from 1.
#[derive(Drop)]
pub struct Nodes {
    items: Vec<Node>,
}

impl Model for Nodes {
    ghost use Rattle.std.specs.Prelude.{List};
    ghost use Rattle.er_binary.specs.declared.nodes.Node.{Node};

    ghost Value = { List Node };

    ghost view = { λ nodes. nodes.items.items };
}

impl Nodes {
    pub(crate) fn new(alloc: Global) -> Nodes
        ensures { result ≡ [] }
    {
        Nodes {
            items: Vec::new(alloc),
        }
    }

    /// How many there are.
    pub fn len(&self) -> u64
        ensures { result ≡ length self.now }
    {
        self.items.len() as u64
    }

    /// The node of a number from 1 on.
    pub(crate) fn get(&self, n: u64) -> Node
        ensures { result ≡ node_at self.now n }
    {
        let place = n.saturating_sub(1) as usize;
        self.items.get(place).copied().unwrap_or(NO_NODE)
    }

    pub(crate) fn push(&mut self, node: Node) -> Put
        ensures ok { OnOk result (self.new ≡ self.old ++ node ∷ []) }
        ensures err { OnErr result (self.new ≡ self.old) }
    {
        self.items.push(node)?;
        Ok(())
    }

    /// The place that is shown for a node. Of node 0 there is none.
    pub fn place_of(&self, node: u64) -> Option<u32>
        ensures { result ≡ place_of self.now node }
    {
        if node == 0 {
            return None;
        }
        Some(self.get(self.get(node).shown).place)
    }

    /// The place that is shown for a node, and those of the calls that led there, outward.
    pub fn way_to(&self, alloc: Global, node: u64) -> Result<Vec<u32>, AllocError>
        ensures { IfOk result (λ places. places.items ≡ way_to self.now node) }
    {
        let mut places = Vec::new(alloc);
        if node != 0 {
            put_way(&mut places, self, MOST_PLACES, self.get(node).shown)?;
        }
        Ok(places)
    }
}

// Puts the places of a node and of its callers, at most so many.
fn put_way(places: &mut Vec<u32>, nodes: &Nodes, count: u32, node: u64) -> Put
    ensures { OnOk result (places.new.items ≡ places.old.items ++ way_out nodes.now count node) }
{
    if count == 0 || node == 0 {
        return Ok(());
    }
    let at = nodes.get(node);
    places.push(at.place)?;
    put_way(places, nodes, count - 1, at.caller)
}
