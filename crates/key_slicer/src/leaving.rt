//! Settled slices that leave the state of a key.
ghost use Rattle.std.specs.Prelude.{◌≡◌, ◌≤◌, ◌+◌, ◌*◌, length, false};
ghost use Rattle.slice_lists.specs.Touched.{marks_left, slices_from};
ghost use Rattle.key_slicer.specs.Parts.{EachPart, all_credit};
ghost use Rattle.key_slicer.specs.Promises.{HasFewSettledMarks};
ghost use Rattle.key_slicer.specs.Keys.{FitsPurged, KeyAhead, MayPurgeKey};
ghost use Rattle.key_slicer.specs.Work.{leave_work};

use crate::key_state::{KeyState, first_time};
use agg_laws::{AggTree, Steps};
use aggregates::Partial;
use key_parts::KeyPart;
use slice_store::SliceStore;
use stream_base::Defs;

impl<M: Partial, T: AggTree<M>, P: KeyPart<M>> KeyState<M, T, P> {
    // Lets the slices leave that are settled under the watermark, and what the parts need no more.
    // Marks that nothing needs leave with the slices, or else once they are more than the others:
    // then what it takes to move the others up is paid for by those that leave.
    pub fn purge<L>(&mut self, defs: &Defs, water: u64, steps: &mut Steps<L>)
        requires { MayPurgeKey P.stands defs.now water self.old }
        ensures key { self.new.key ≡ self.old.key }
        ensures next { self.new.next ≡ self.old.next }
        ensures fits { FitsPurged P.stands defs.now water self.old self.new }
        ensures reach { self.new.store.reach ≤ self.old.store.reach }
        ensures work { steps.new ≤ steps.old + leave_work self.old.store self.new.store }
        ensures credit { all_credit P.credit self.new.parts.list.items
            ≤ all_credit P.credit self.old.parts.list.items }
        ensures ahead { KeyAhead P.is_ahead defs.now water self.old → KeyAhead P.is_ahead defs.now
            water self.new }
        ensures marks { HasFewSettledMarks P.settles_at defs.now water self.old.parts
            self.new.store }
        ensures lean { EachPart (λ i part. P.is_lean defs.now i water part)
            self.new.parts.list.items }
    {
        self.drop_settled(defs, water, steps);
        self.parts.drop_needless(defs, water);
    }

    // Lets the slices leave that are settled under the watermark, and with them what the parts need
    // no more that has ended.
    fn drop_settled<L>(&mut self, defs: &Defs, water: u64, steps: &mut Steps<L>)
        requires { MayPurgeKey P.stands defs.now water self.old }
        ensures key { self.new.key ≡ self.old.key }
        ensures next { self.new.next ≡ self.old.next }
        ensures fits { FitsPurged P.stands defs.now water self.old self.new }
        ensures reach { self.new.store.reach ≤ self.old.store.reach }
        ensures work { steps.new ≤ steps.old + leave_work self.old.store self.new.store }
        ensures credit { all_credit P.credit self.new.parts.list.items
            ≤ all_credit P.credit self.old.parts.list.items }
        ensures ahead { KeyAhead P.is_ahead defs.now water self.old → KeyAhead P.is_ahead defs.now
            water self.new }
        ensures marks { HasFewSettledMarks P.settles_at defs.now water self.old.parts
            self.new.store }
    {
        let time = self.parts.first_unsettled(defs, water);
        if has_needless(&self.store, time) {
            self.store.drop_settled(time, steps);
            self.parts.drop_settled(defs, water);
        }
    }
}

// Whether the first slice of a store begins before a time, or more of its marks could leave then than
// would stay.
fn has_needless<M: Partial, T: AggTree<M>>(store: &SliceStore<M, T>, time: u64) -> bool
    ensures slices { result ≡ false → slices_from time store.now.slices ≡ store.now.slices }
    ensures marks { result ≡ false
        → length store.now.marks ≤ 2 * length (marks_left time store.now.marks) }
{
    begins_before(store, time) || store.are_marks_mostly_needless(time)
}

// Whether the first slice of a store begins before a time.
fn begins_before<M: Partial, T: AggTree<M>>(store: &SliceStore<M, T>, time: u64) -> bool
    ensures { result ≡ false → slices_from time store.now.slices ≡ store.now.slices }
{
    match first_time(store) {
        Some(low) => low < time,
        None => false,
    }
}
