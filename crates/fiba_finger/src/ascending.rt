ghost use Rattle.std.specs.Prelude.{◌≤◌, ◌+◌, ◌*◌};
ghost use Rattle.fiba_finger.specs.Climbs.{CanClimb, IsClimbed};

use crate::climbed::Climbed;
use agg_laws::{Monoid, Probes};
use fiba_nodes::{Nodes, Root};

/// From a node on the right edge up to the first one whose tree has the place of a key. At each
/// level that is climbed the key isn't behind the last item of the parent, and so the whole tree that
/// is left lies behind the key.
pub fn climb<M: Monoid>(
    nodes: &Nodes<M>,
    root: Root,
    from: Climbed,
    key: u64,
    probes: &mut Probes,
) -> Climbed
    requires { CanClimb M.is_value M.empty M.op nodes.now root key from.at from.below }
    ensures climbed { IsClimbed nodes.now root key result.at result.below }
    ensures probes { probes.old ≤ probes.new }
    ensures looks { probes.new + 2 * from.below ≤ probes.old + 2 * result.below + 2 }
{
    if from.below + 1 == root.height {
        return from;
    }
    let parent = nodes.peek(from.at, probes).up.unwrap();
    if nodes.peek(parent, probes).last_slot().item.key < key {
        return from;
    }
    let next = Climbed {
        at: parent,
        below: from.below + 1,
    };
    climb(nodes, root, next, key, probes)
}
