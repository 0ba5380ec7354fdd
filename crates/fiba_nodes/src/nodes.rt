ghost use Rattle.std.specs.Prelude.{◌≡◌, ◌≤◌, ◌+◌, ℕ, None, Some, IsSome};
ghost use Rattle.agg_laws.specs.Counters.{Counts};
ghost use Rattle.fiba_nodes.specs.Stores.{Adds, Puts, Reserves, look};
ghost use Rattle.fiba_nodes.specs.Links.{IsAdopted};

use crate::node::Node;
use agg_laws::Probes;
use slab::Slab;
use std::alloc::Global;
use std::marker::Model;
use stream_base::NoMemory;

/// Nodes under numbers, as a map from numbers to nodes.
#[derive(Drop)]
pub struct Nodes<M> {
    slab: Slab<Node<M>>,
}

impl<M> Model for Nodes<M> {
    ghost use Rattle.std.specs.Prelude.{◌-◌};
    ghost use Rattle.slab.specs.Slab.{slab_len};
    ghost use Rattle.fiba_nodes.specs.Stores.{Store};

    ghost Value = { Store M };

    ghost view = { λ n. record {
      cells = n.slab.slots;
      spare = n.slab.capacity - slab_len n.slab;
    } };
}

impl<M: Copy> Nodes<M> {
    /// No nodes.
    pub fn new(alloc: Global) -> Nodes<M>
        ensures { (k : ℕ) → look result k ≡ None }
    {
        Nodes {
            slab: Slab::new(alloc),
        }
    }

    /// Makes room for `room` more nodes.
    pub fn reserve(&mut self, room: u64) -> Result<(), NoMemory>
        ensures { Reserves room result self.old self.new }
    {
        self.slab.reserve(room as usize)?;
        Ok(())
    }

    /// For how many more nodes there is room.
    pub fn spare(&self) -> usize
        ensures { result ≡ self.now.spare }
    {
        self.slab.capacity() - self.slab.len()
    }

    /// Puts a node under a number that wasn't there. Uses one spare.
    pub fn add(&mut self, node: Node<M>) -> usize
        requires { 1 ≤ self.old.spare }
        ensures { Adds self.old self.new result node }
    {
        self.slab.insert_reserved(node)
    }

    /// The node under a number. One probe.
    pub fn get(&self, at: usize, probes: &mut Probes) -> Node<M>
        requires { IsSome (look self.now at) }
        ensures found { look self.now at ≡ Some result }
        ensures looks { Counts probes.old probes.new }
    {
        probes.look();
        self.slab[at]
    }

    /// The node under a number, where it stands. One probe.
    pub fn peek(&self, at: usize, probes: &mut Probes) -> &Node<M>
        requires { IsSome (look self.now at) }
        ensures found { look self.now at ≡ Some result.now }
        ensures looks { Counts probes.old probes.new }
    {
        probes.look();
        &self.slab[at]
    }

    /// Another node under a number.
    pub fn set(&mut self, at: usize, node: Node<M>)
        requires { IsSome (look self.old at) }
        ensures put { Puts self.old self.new at (Some node) }
        ensures spare { self.new.spare ≡ self.old.spare }
    {
        self.slab[at] = node;
    }

    /// Gives the node under a number another parent. One probe.
    pub fn adopt(&mut self, kid: usize, at: usize, probes: &mut Probes)
        requires { IsSome (look self.old kid) }
        ensures adopted { IsAdopted self.old self.new kid at }
        ensures looks { Counts probes.old probes.new }
    {
        probes.look();
        self.slab[kid].up = Some(at);
    }

    /// Takes the node under a number out.
    pub fn free(&mut self, at: usize)
        requires { IsSome (look self.old at) }
        ensures freed { Puts self.old self.new at None }
        ensures spare { self.new.spare ≡ self.old.spare + 1 }
    {
        self.slab.remove(at);
    }
}
