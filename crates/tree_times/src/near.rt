ghost use Rattle.std.specs.Prelude.{◌≡◌, ◌≤◌, ◌^◌, []};

use agg_laws::{AggTree, Lift, Probes, Steps};
use aggregates::Sum;
use stream_base::NoMemory;

/// Keys in order, and late ones that each come at the same distance from the greatest.
#[derive(Clone, Copy)]
pub struct Near {
    /// How many pairs have a greater key than a late one when it comes.
    pub distance: u64,
    /// How many keys come before the first late one.
    pub count: u64,
    /// How many keys come late. After each comes one more in order, so that the distance stays.
    pub late: u64,
}

impl Near {
    /// These numbers, with the farthest distance that is there where this one is farther.
    pub fn of(distance: u64, count: u64, late: u64) -> Near
        ensures far { result.distance ≤ result.count }
        ensures count { result.count ≡ count }
        ensures late { result.late ≡ late }
    {
        Near {
            distance: distance.min(count),
            count,
            late,
        }
    }

    /// Puts them into an empty tree: even keys in order, and odd ones late. The combines of the late
    /// ones are counted apart.
    pub fn fill<T: AggTree<Sum>, L>(
        self,
        tree: &mut T,
        probes: &mut Probes,
        steps: &mut Steps<L>,
        late_steps: &mut Steps<L>,
    ) -> Result<(), NoMemory>
        requires empty { (T.table tree.old).pairs ≡ [] }
        requires far { self.distance ≤ self.count }
        requires few { self.count ≤ 2 ^ 20 }
        requires few_late { self.late ≤ 2 ^ 20 }
    {
        tree.reserve(self.count + 2 * self.late)?;
        for i in 0..self.count + self.late {
            if i >= self.count {
                let key = 2 * (i - self.distance) + 1;
                tree.insert(key, Sum::lift(1), probes, late_steps);
            }
            tree.insert(2 * i + 2, Sum::lift(1), probes, steps);
        }
        Ok(())
    }
}
