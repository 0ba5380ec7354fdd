ghost use Rattle.std.specs.Prelude.{◌≡◌, suc, true};
ghost use Rattle.agg_laws.specs.Counters.{Looks};
ghost use Rattle.fiba_nodes.specs.Trees.{IsAt, plain};
ghost use Rattle.fiba_finger.specs.Edges.{edge, left_edge};

use agg_laws::{Monoid, Probes};
use fiba_nodes::{Nodes, Place};

/// The place of a node on the right edge, which may be the root.
pub fn right_place(is_root: bool) -> Place
    ensures left { result.left ≡ is_root }
    ensures right { result.right ≡ true }
{
    Place {
        left: is_root,
        right: true,
    }
}

/// The leaf on the right edge of a tree, which may be on the left edge too.
pub fn rightmost<M: Monoid>(
    nodes: &Nodes<M>,
    at: usize,
    below: u32,
    left: bool,
    probes: &mut Probes,
) -> usize
    requires { IsAt M.is_value M.empty M.op (plain nodes.now) (suc below) left true at }
    ensures leaf { result ≡ edge (plain nodes.now) below at }
    ensures looks { Looks below probes.old probes.new }
{
    if below == 0 {
        return at;
    }
    let last = nodes.peek(at, probes).last();
    rightmost(nodes, last, below - 1, false, probes)
}

/// The leaf on the left edge of a tree.
pub fn leftmost<M: Monoid>(
    nodes: &Nodes<M>,
    at: usize,
    below: u32,
    place: Place,
    probes: &mut Probes,
) -> usize
    requires { IsAt M.is_value M.empty M.op (plain nodes.now) (suc below)
        place.left place.right at }
    ensures leaf { result ≡ left_edge (plain nodes.now) below at }
    ensures looks { Looks below probes.old probes.new }
{
    if below == 0 {
        return at;
    }
    let kid = nodes.peek(at, probes).first_kid();
    leftmost(nodes, kid, below - 1, place.front(), probes)
}
