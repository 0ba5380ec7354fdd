ghost use Rattle.std.specs.Prelude.{◌≡◌, ◌+◌, IfOk, OnOk, max};
ghost use Rattle.stream_base.specs.declared.limits.TheConstants.{TIME_MAX};
ghost use Rattle.slice_tests.specs.Together.{AreOfMarks, ForgetsNone, HaveCome, MayCome, StandsAt};

use crate::told::{Work, again, gone, is_cut, new};
use agg_laws::{AggTree, Steps};
use aggregates::Bundle;
use context_windows::MarkWindows;
use context_windows::laws::slices_part_at_edges;
use pair_row::FlatTree;
use slice_store::SliceStore;
use std::alloc::Global;
use std::process::Abort;
use std::test::Fail;
use stream_base::{Change, Def, Defs, FINAL, Func, Kept, KeyText, Kind, TIME_MAX};

// What comes to the intervals between the marks of a key.
#[derive(Clone, Copy)]
enum Step {
    // A tuple of a value at a time, under a watermark.
    Put(u64, i64, u64),
    // A mark at a time, under a watermark.
    Mark(u64, u64),
    // A move of the watermark.
    Water(u64, u64),
    // What ends at or before a time is forgotten.
    Purge(u64),
}

// The sums between a key's marks: its slices, up to where intervals are forgotten, and the changes.
#[derive(Drop)]
struct MarksWindow<T: AggTree<Bundle>> {
    defs: Defs,
    store: SliceStore<Bundle, T>,
    between: MarkWindows,
    forgotten: u64,
    key: KeyText,
    changes: Vec<Change>,
    steps: Steps<Work>,
}

impl<T: AggTree<Bundle>> MarksWindow<T> {
    // No tuple and no mark yet of key `a`.
    fn new(alloc: Global, steps: Steps<Work>) -> Result<MarksWindow<T>, Fail>
        ensures together { IfOk result (λ w. AreOfMarks w.defs w.store w.between) }
        ensures few { IfOk result (λ w. HaveCome 0 w.store) }
        ensures known { IfOk result (λ w. (w.between).forgotten ≡ w.forgotten) }
    {
        let mut windows = Vec::new(alloc);
        windows.push(Def {
            kind: Kind::Marks,
            func: Func::Sum,
        })?;
        let defs = Defs::new(windows, 10, 0, 0)?;
        let key = KeyText::from_bytes(b"a")?;
        Ok(MarksWindow {
            defs,
            store: SliceStore::new(alloc),
            between: MarkWindows::new(alloc),
            forgotten: 0,
            key,
            changes: Vec::new(alloc),
            steps,
        })
    }

    // Takes the steps, one after another; each comes with how many changes were told by then.
    fn follow(&mut self, rt: &impl Abort, script: &[(Step, usize)]) -> Result<(), Fail>
        requires { StandsAt 0 self.old.defs self.old.store self.old.between self.old.forgotten }
    {
        for k in 0..script.len() {
            let (step, told) = script[k];
            self.take(rt, k as u64, step)?;
            assert_eq!(rt; self.changes.len(), told, "after step {k}");
        }
        Ok(())
    }

    fn take(&mut self, rt: &impl Abort, pos: u64, step: Step) -> Result<(), Fail>
        requires { StandsAt pos self.old.defs self.old.store self.old.between self.old.forgotten }
        ensures together { OnOk result
            (AreOfMarks self.new.defs self.new.store self.new.between) }
        ensures few { OnOk result (HaveCome (pos + 1) self.new.store) }
        ensures known { OnOk result ((self.new.between).forgotten ≡ self.new.forgotten) }
    {
        match step {
            Step::Put(time, value, water) => {
                assert!(rt; time <= TIME_MAX);
                assert!(rt; self.forgotten <= time);
                self.put(pos, time, value, water)
            }
            Step::Mark(time, water) => {
                assert!(rt; time <= TIME_MAX);
                assert!(rt; self.forgotten <= time);
                self.mark(pos, time, water)
            }
            Step::Water(old, new) => self.move_water(old, new),
            Step::Purge(time) => {
                self.drop_settled(time);
                Ok(())
            }
        }
    }

    // One tuple more under a watermark.
    fn put(&mut self, pos: u64, time: u64, value: i64, water: u64) -> Result<(), Fail>
        requires { MayCome pos time self.old.defs self.old.store self.old.between }
        ensures together { OnOk result
            (AreOfMarks self.new.defs self.new.store self.new.between) }
        ensures few { OnOk result (HaveCome (pos + 1) self.new.store) }
        ensures forgets { ForgetsNone self.old.between self.old.forgotten
            self.new.between self.new.forgotten }
    {
        slices_part_at_edges();
        self.store.reserve()?;
        let changes = self.between.reserve(0, time, water)?;
        self.changes.reserve(changes as usize)?;
        is_cut(&self.defs, &self.store);
        self.between
            .before(0, Func::Sum, &self.store, time, water, &mut self.steps);
        let x = Kept {
            position: pos,
            time,
            value,
        };
        self.store.put(&self.defs, x, &mut self.steps);
        is_cut(&self.defs, &self.store);
        self.between.put(
            0,
            Func::Sum,
            &self.store,
            &self.key,
            time,
            water,
            &mut self.changes,
            &mut self.steps,
        );
        Ok(())
    }

    // One mark more under a watermark.
    fn mark(&mut self, pos: u64, time: u64, water: u64) -> Result<(), Fail>
        requires { MayCome pos time self.old.defs self.old.store self.old.between }
        ensures together { OnOk result
            (AreOfMarks self.new.defs self.new.store self.new.between) }
        ensures few { OnOk result (HaveCome (pos + 1) self.new.store) }
        ensures forgets { ForgetsNone self.old.between self.old.forgotten
            self.new.between self.new.forgotten }
    {
        slices_part_at_edges();
        self.store.reserve()?;
        let changes = self.between.reserve(0, time, water)?;
        self.changes.reserve(changes as usize)?;
        self.store.mark(&self.defs, time, &mut self.steps);
        is_cut(&self.defs, &self.store);
        self.between.mark(
            0,
            Func::Sum,
            &self.store,
            &self.key,
            time,
            water,
            &mut self.changes,
            &mut self.steps,
        );
        Ok(())
    }

    // A move of the watermark.
    fn move_water(&mut self, old: u64, new: u64) -> Result<(), Fail>
        requires { AreOfMarks self.old.defs self.old.store self.old.between }
        ensures together { AreOfMarks self.new.defs self.new.store self.new.between }
        ensures store { self.new.store ≡ self.old.store }
        ensures forgets { ForgetsNone self.old.between self.old.forgotten
            self.new.between self.new.forgotten }
    {
        slices_part_at_edges();
        is_cut(&self.defs, &self.store);
        let due = self.between.due(0, old, new);
        self.changes.reserve(due as usize)?;
        self.between.water(
            0,
            Func::Sum,
            &self.store,
            &self.key,
            old,
            new,
            &mut self.changes,
            &mut self.steps,
        );
        Ok(())
    }

    // The intervals that end at or before a time are forgotten.
    fn drop_settled(&mut self, time: u64)
        requires { AreOfMarks self.old.defs self.old.store self.old.between }
        ensures together { AreOfMarks self.new.defs self.new.store self.new.between }
        ensures store { self.new.store ≡ self.old.store }
        ensures same { (self.new.between).forgotten ≡ max (self.old.between).forgotten time }
        ensures forgotten { self.new.forgotten ≡ max self.old.forgotten time }
    {
        self.between.drop_settled(time);
        self.forgotten = self.forgotten.max(time);
    }
}

// At a watermark of 20 nothing stands: tuples at 2 and 12 lie in the interval up to the end of time.
// A late mark at 10 parts it, so that its first part stands at once. That part is forgotten at 10.
fn parts_an_interval<T: AggTree<Bundle> + Drop>(
    rt: &impl Abort,
    alloc: Global,
    steps: Steps<Work>,
) -> Result<(), Fail> {
    let script = [
        (Step::Put(2, 1, 0), 0),
        (Step::Put(12, 4, 0), 0),
        (Step::Water(0, 20), 0),
        (Step::Mark(10, 20), 1),
        (Step::Purge(10), 1),
        (Step::Water(20, FINAL), 2),
    ];
    let a = KeyText::from_bytes(b"a")?;
    let told = [new(&a, 0, 10, 1, 1), new(&a, 10, FINAL, 1, 4)];
    let mut window: MarksWindow<T> = MarksWindow::new(alloc, steps)?;
    window.follow(rt, &script)?;
    assert_eq!(rt; window.changes.as_slice(), told.as_slice());
    Ok(())
}

#[test]
fn a_mark_behind_the_watermark_completes_the_first_part(rt: HostRuntime) -> Result<(), Fail> {
    parts_an_interval::<FlatTree<Bundle>>(&rt, rt.alloc(), Steps::start(&rt))
}

// With a mark at 20 the interval [0, 20) stands with the tuples at 2 and 12. A late mark at 10 takes
// it back, and tells [0, 10) and [10, 20). One at 15 takes the latter back and tells [10, 15), since
// no tuple lies behind. Marks at 0, 10 and 20 split nothing: intervals start and end there already.
// Of the two that are left [0, 10) is the last that begins by 9, and [10, 15) by any time from 10 on.
#[test]
fn a_late_mark_takes_an_interval_back_for_its_parts(rt: HostRuntime) -> Result<(), Fail> {
    let script = [
        (Step::Put(2, 1, 0), 0),
        (Step::Put(12, 4, 0), 0),
        (Step::Mark(20, 0), 0),
        (Step::Water(0, 20), 1),
        (Step::Mark(10, 20), 4),
        (Step::Mark(15, 20), 6),
        (Step::Mark(0, 20), 6),
        (Step::Mark(10, 20), 6),
        (Step::Mark(20, 20), 6),
    ];
    let a = KeyText::from_bytes(b"a")?;
    let told = [
        new(&a, 0, 20, 2, 5),
        gone(&a, 0, 20, 2, 5),
        new(&a, 0, 10, 1, 1),
        new(&a, 10, 20, 1, 4),
        gone(&a, 10, 20, 1, 4),
        new(&a, 10, 15, 1, 4),
    ];
    let mut window: MarksWindow<FlatTree<Bundle>> = MarksWindow::new(
        rt.alloc(),
        Steps::start(&rt),
    )?;
    window.follow(&rt, &script)?;
    assert_eq!(rt; window.changes.as_slice(), told.as_slice());
    assert_eq!(rt; window.between.end_of_last_begun(9), 10);
    assert_eq!(rt; window.between.end_of_last_begun(17), 15);
    Ok(())
}

// Of [0, 10) and [10, 20) the first is forgotten at 10. A late tuple at that very time changes the
// other, which showed 4; a late mark at 15 then takes it back, with 2 + 4 in the first part.
#[test]
fn a_late_tuple_behind_a_purge_changes_what_is_left(rt: HostRuntime) -> Result<(), Fail> {
    let script = [
        (Step::Put(2, 1, 0), 0),
        (Step::Put(12, 4, 0), 0),
        (Step::Mark(10, 0), 0),
        (Step::Mark(20, 0), 0),
        (Step::Water(0, 20), 2),
        (Step::Purge(10), 2),
        (Step::Put(10, 2, 20), 3),
        (Step::Mark(15, 20), 5),
    ];
    let a = KeyText::from_bytes(b"a")?;
    let told = [
        new(&a, 0, 10, 1, 1),
        new(&a, 10, 20, 1, 4),
        again(&a, 10, 20, 2, 6, 4),
        gone(&a, 10, 20, 2, 6),
        new(&a, 10, 15, 2, 6),
    ];
    let mut window: MarksWindow<FlatTree<Bundle>> = MarksWindow::new(
        rt.alloc(),
        Steps::start(&rt),
    )?;
    window.follow(&rt, &script)?;
    assert_eq!(rt; window.changes.as_slice(), told.as_slice());
    Ok(())
}

// Of marks at 10, 20 and 30 a purge at 25 leaves the last two. A late tuple at that very time lies
// between them, though no tuple had come before, and a late mark at 27 parts what lies between.
#[test]
fn a_purge_leaves_the_mark_that_a_late_tuple_needs(rt: HostRuntime) -> Result<(), Fail> {
    let script = [
        (Step::Mark(10, 0), 0),
        (Step::Mark(20, 0), 0),
        (Step::Mark(30, 0), 0),
        (Step::Water(0, 35), 0),
        (Step::Purge(25), 0),
        (Step::Put(25, 4, 35), 1),
        (Step::Mark(27, 35), 3),
    ];
    let a = KeyText::from_bytes(b"a")?;
    let told = [
        new(&a, 20, 30, 1, 4),
        gone(&a, 20, 30, 1, 4),
        new(&a, 20, 27, 1, 4),
    ];
    let mut window: MarksWindow<FlatTree<Bundle>> = MarksWindow::new(
        rt.alloc(),
        Steps::start(&rt),
    )?;
    window.follow(&rt, &script)?;
    assert_eq!(rt; window.changes.as_slice(), told.as_slice());
    Ok(())
}
