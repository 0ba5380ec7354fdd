ghost use Rattle.std.specs.Prelude.{◌≡◌, length};
ghost use Rattle.agg_laws.specs.Tables.{IsFlat, IsHeight};

use crate::pair_row::PairRow;
use agg_laws::{AggTree, Monoid, Probes, Steps};
use std::alloc::Global;
use std::marker::Model;
use stream_base::NoMemory;

/// The plain tree of aggregates: a row of pairs, sorted by key. It has no nodes and so no height; its
/// reach is its length.
#[derive(Drop)]
pub struct FlatTree<M> {
    row: PairRow<M>,
}

impl<M> Model for FlatTree<M> {
    ghost use Rattle.agg_laws.specs.Tables.{Table};

    ghost Value = { Table M };

    ghost view = { λ t. t.row };
}

impl<M: Monoid> AggTree<M> for FlatTree<M> {
    ghost table = { λ t. t };

    ghost reach = { λ t. length t.pairs };

    ghost bounded = { λ reach count. reach ≡ count };

    // A value is put in the place of another with no combine, however many lie behind it.
    ghost near = { λ levels _. IsFlat levels };

    fn fresh(alloc: Global) -> FlatTree<M> {
        FlatTree {
            row: PairRow::new(alloc),
        }
    }

    fn reserve(&mut self, room: u64) -> Result<(), NoMemory> {
        self.row.reserve(room as usize)
    }

    fn insert<L>(&mut self, key: u64, value: M, _probes: &mut Probes, _steps: &mut Steps<L>) {
        self.row.insert(key, value);
    }

    fn set<L>(&mut self, key: u64, value: M, _probes: &mut Probes, _steps: &mut Steps<L>) {
        self.row.set(key, value);
    }

    fn remove<L>(&mut self, key: u64, _probes: &mut Probes, _steps: &mut Steps<L>) -> Option<M> {
        self.row.remove(key)
    }

    fn first_key(&self) -> Option<u64> {
        self.row.first_key()
    }

    fn fold_range<L>(&self, low: u64, high: u64, _probes: &mut Probes, steps: &mut Steps<L>) -> M {
        self.row.fold_onto(M::unit(), low, high, steps)
    }

    fn len(&self) -> u64 {
        self.row.len()
    }

    /// A vector has no nodes, and so no height.
    fn height(&self) -> u32
        ensures height { IsHeight self.now result }
        ensures flat { IsFlat result }
    {
        0
    }
}
