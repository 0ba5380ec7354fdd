ghost use Rattle.std.specs.Prelude.{◌<◌, ◌++◌, ℕ, List, [], ◌∷◌};
ghost use Rattle.stream_base.specs.declared.entry.Entry.{Entry};
ghost use Rattle.fan_in.specs.Ports.{HasHanded, IsAbout, MayFollow, PortLaws};

use crate::outcome::Outcome;
use outside::Gate;
use std::sync::Wait;
use std::thread::Threads;
use stream_base::Entry;

// What a feed hands its entries in with at one shard: a pass of the shard's desk, or a sender of
// its lane.
pub(crate) trait Port {
    // Where it hands them in: the desk, or the lane.
    type Inlet: Sync;

    // It is one of this inlet.
    ghost is_at: { Self.Inlet → Self → Type 0 };

    // It is that of the source with this number.
    ghost is_of: { ℕ → Self → Type 0 };

    // The same one, whatever it has handed in.
    ghost is_same: { Self → Self → Type 0 };

    // What it has handed in.
    ghost handed: { Self → List Entry };

    // It knows that its shard takes no more.
    ghost is_full: { Self → Type 0 };

    // Hands an entry in. The inlet is that of this shard.
    fn hand_in<G: Gate, R: Threads + Wait>(
        &mut self,
        rt: &R,
        gate: &G,
        inlet: &Self::Inlet,
        shard: u16,
        entry: &Entry,
    ) -> Outcome
        requires few { shard < 16 }
        requires own { is_at inlet.now self.old }
        requires own_source { is_of entry.now.source self.old }
        requires may { MayFollow (handed self.old) entry.now }
        ensures same { is_same self.old self.new }
        ensures about { IsAbout shard result }
        ensures handed { HasHanded (handed self.old ++ entry.now ∷ []) shard result
            (handed self.new) (is_full self.new) };

    // The same one stays of its inlet and of its source.
    ghost laws: { PortLaws is_at is_of is_same };
}
