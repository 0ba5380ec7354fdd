ghost use Rattle.std.specs.Prelude.{◌≡◌, IfOk, OnOk, max};
ghost use Rattle.stream_base.specs.declared.limits.TheConstants.{TIME_MAX};
ghost use Rattle.context_windows.specs.Spanned.{IsSessionAt};
ghost use Rattle.slice_tests.specs.Together.{AreKnown, AreOfSessions, MayJoin};

use crate::told::{Work, again, gone, is_cut, new};
use agg_laws::{AggTree, Steps};
use aggregates::Bundle;
use context_windows::Sessions;
use context_windows::laws::slices_part_at_sessions;
use pair_row::FlatTree;
use slice_store::SliceStore;
use std::alloc::Global;
use std::process::Abort;
use std::test::Fail;
use stream_base::{Change, Def, Defs, FINAL, Func, Kept, KeyText, Kind, TIME_MAX};

// What comes to the sessions of a key.
#[derive(Clone, Copy)]
enum Step {
    // A tuple of a value at a time, under a watermark.
    Put(u64, i64, u64),
    // A move of the watermark.
    Water(u64, u64),
    // What ends at or before a time is forgotten.
    Purge(u64),
}

// The sums of a key's sessions: its slices, up to where sessions are forgotten, and the changes.
#[derive(Drop)]
struct SessionWindow<T: AggTree<Bundle>> {
    defs: Defs,
    store: SliceStore<Bundle, T>,
    sessions: Sessions,
    forgotten: u64,
    key: KeyText,
    changes: Vec<Change>,
    steps: Steps<Work>,
}

impl<T: AggTree<Bundle>> SessionWindow<T> {
    // Sessions of key `a`, a gap of 5 apart, with no tuple yet.
    fn new(alloc: Global, steps: Steps<Work>) -> Result<SessionWindow<T>, Fail>
        ensures together { IfOk result (λ w. AreOfSessions w.defs w.store w.sessions) }
        ensures known { IfOk result (λ w. (w.sessions).forgotten ≡ w.forgotten) }
    {
        let defs = session_defs(alloc, 5)?;
        let key = KeyText::from_bytes(b"a")?;
        Ok(SessionWindow {
            defs,
            store: SliceStore::new(alloc),
            sessions: Sessions::new(alloc),
            forgotten: 0,
            key,
            changes: Vec::new(alloc),
            steps,
        })
    }

    // Takes the steps, one after another; each comes with how many changes were told by then.
    fn follow(&mut self, rt: &impl Abort, script: &[(Step, usize)]) -> Result<(), Fail>
        requires { AreKnown self.old.defs self.old.store self.old.sessions self.old.forgotten }
    {
        for k in 0..script.len() {
            let (step, told) = script[k];
            self.take(rt, k as u64, step)?;
            assert_eq!(rt; self.changes.len(), told, "after step {k}");
        }
        Ok(())
    }

    fn take(&mut self, rt: &impl Abort, pos: u64, step: Step) -> Result<(), Fail>
        requires { AreKnown self.old.defs self.old.store self.old.sessions self.old.forgotten }
        ensures together { OnOk result
            (AreOfSessions self.new.defs self.new.store self.new.sessions) }
        ensures known { OnOk result ((self.new.sessions).forgotten ≡ self.new.forgotten) }
    {
        match step {
            Step::Put(time, value, water) => {
                assert!(rt; time <= TIME_MAX);
                assert!(rt; self.forgotten <= time);
                self.put(pos, time, value, water)
            }
            Step::Water(old, new) => self.move_water(old, new),
            Step::Purge(time) => {
                self.drop_settled(time);
                Ok(())
            }
        }
    }

    // One tuple more under a watermark.
    fn put(&mut self, pos: u64, time: u64, value: i64, water: u64) -> Result<(), Fail>
        requires { MayJoin time self.old.defs self.old.store self.old.sessions }
        ensures together { OnOk result
            (AreOfSessions self.new.defs self.new.store self.new.sessions) }
        ensures same { (self.new.sessions).forgotten ≡ (self.old.sessions).forgotten }
        ensures forgotten { self.new.forgotten ≡ self.old.forgotten }
    {
        slices_part_at_sessions();
        self.store.reserve()?;
        let changes = self.sessions.reserve(&self.defs, 0, time, water)?;
        self.changes.reserve(changes as usize)?;
        is_cut(&self.defs, &self.store);
        self.sessions
            .before(&self.defs, 0, &self.store, time, water, &mut self.steps);
        let x = Kept {
            position: pos,
            time,
            value,
        };
        self.store.put(&self.defs, x, &mut self.steps);
        is_cut(&self.defs, &self.store);
        self.sessions.put(
            &self.defs,
            0,
            &self.store,
            &self.key,
            time,
            water,
            &mut self.changes,
            &mut self.steps,
        );
        Ok(())
    }

    // A move of the watermark.
    fn move_water(&mut self, old: u64, new: u64) -> Result<(), Fail>
        requires { AreOfSessions self.old.defs self.old.store self.old.sessions }
        ensures together { AreOfSessions self.new.defs self.new.store self.new.sessions }
        ensures same { (self.new.sessions).forgotten ≡ (self.old.sessions).forgotten }
        ensures forgotten { self.new.forgotten ≡ self.old.forgotten }
    {
        slices_part_at_sessions();
        is_cut(&self.defs, &self.store);
        let due = self.sessions.due(&self.defs, 0, old, new);
        self.changes.reserve(due as usize)?;
        self.sessions.water(
            &self.defs,
            0,
            &self.store,
            &self.key,
            old,
            new,
            &mut self.changes,
            &mut self.steps,
        );
        Ok(())
    }

    // The sessions that end at or before a time are forgotten.
    fn drop_settled(&mut self, time: u64)
        requires { AreOfSessions self.old.defs self.old.store self.old.sessions }
        ensures together { AreOfSessions self.new.defs self.new.store self.new.sessions }
        ensures same { (self.new.sessions).forgotten ≡ max (self.old.sessions).forgotten time }
        ensures forgotten { self.new.forgotten ≡ max self.old.forgotten time }
    {
        self.sessions.drop_settled(time);
        self.forgotten = self.forgotten.max(time);
    }
}

fn session_defs(alloc: Global, gap: u64) -> Result<Defs, Fail>
    ensures session { IfOk result (λ d. IsSessionAt d 0) }
{
    let mut windows = Vec::new(alloc);
    windows.push(Def {
        kind: Kind::Session { gap },
        func: Func::Sum,
    })?;
    let defs = Defs::new(windows, 20, 0, 0)?;
    let _windows = defs.windows();
    Ok(defs)
}

// With a gap of 5 a tuple at 0 is the session [0, 5), and one at 8 is [8, 13). One at 4 is less than
// 5 away from both: they are taken back, and [0, 13) is new with 1 + 2 + 4. One at 13 is just 5 away
// from 8 and stays apart; one at 6 changes [0, 13), which showed 7.
fn joins_sessions<T: AggTree<Bundle> + Drop>(
    rt: &impl Abort,
    alloc: Global,
    steps: Steps<Work>,
) -> Result<(), Fail> {
    let script = [
        (Step::Put(0, 1, 5), 1),
        (Step::Put(8, 2, 5), 1),
        (Step::Water(5, 13), 2),
        (Step::Put(4, 4, 13), 5),
        (Step::Put(13, 8, 13), 5),
        (Step::Put(6, 16, 13), 6),
        (Step::Purge(13), 6),
        (Step::Water(13, FINAL), 7),
    ];
    let a = KeyText::from_bytes(b"a")?;
    let told = [
        new(&a, 0, 5, 1, 1),
        new(&a, 8, 13, 1, 2),
        gone(&a, 0, 5, 1, 1),
        gone(&a, 8, 13, 1, 2),
        new(&a, 0, 13, 3, 7),
        again(&a, 0, 13, 4, 23, 7),
        new(&a, 13, 18, 1, 8),
    ];
    let mut window: SessionWindow<T> = SessionWindow::new(alloc, steps)?;
    window.follow(rt, &script)?;
    assert_eq!(rt; window.changes.as_slice(), told.as_slice());
    Ok(())
}

#[test]
fn a_late_tuple_joins_two_sessions(rt: HostRuntime) -> Result<(), Fail> {
    joins_sessions::<FlatTree<Bundle>>(&rt, rt.alloc(), Steps::start(&rt))
}

// A session that grows past the watermark is taken back, and comes whole when it completes.
#[test]
fn a_session_that_grows_past_the_watermark_is_taken_back(rt: HostRuntime) -> Result<(), Fail> {
    let script = [
        (Step::Put(0, 1, 0), 0),
        (Step::Water(0, 5), 1),
        (Step::Put(3, 2, 5), 2),
        (Step::Water(5, 8), 3),
        (Step::Water(8, FINAL), 3),
    ];
    let a = KeyText::from_bytes(b"a")?;
    let told = [
        new(&a, 0, 5, 1, 1),
        gone(&a, 0, 5, 1, 1),
        new(&a, 0, 8, 2, 3),
    ];
    let mut window: SessionWindow<FlatTree<Bundle>> = SessionWindow::new(
        rt.alloc(),
        Steps::start(&rt),
    )?;
    window.follow(&rt, &script)?;
    assert_eq!(rt; window.changes.as_slice(), told.as_slice());
    Ok(())
}

// Of [0, 5) and [8, 13) the first is forgotten at 5. A late tuple at 5 is just 5 away from 0 and 3
// from 8: only [8, 13) is taken back, and [5, 13) is new with 2 + 4. One at 6 changes that. By 4 no
// session that is left has begun.
#[test]
fn a_late_tuple_behind_a_purge_joins_what_is_left(rt: HostRuntime) -> Result<(), Fail> {
    let script = [
        (Step::Put(0, 1, 0), 0),
        (Step::Put(8, 2, 0), 0),
        (Step::Water(0, 13), 2),
        (Step::Purge(5), 2),
        (Step::Put(5, 4, 13), 4),
        (Step::Put(6, 8, 13), 5),
        (Step::Water(13, FINAL), 5),
    ];
    let a = KeyText::from_bytes(b"a")?;
    let told = [
        new(&a, 0, 5, 1, 1),
        new(&a, 8, 13, 1, 2),
        gone(&a, 8, 13, 1, 2),
        new(&a, 5, 13, 2, 6),
        again(&a, 5, 13, 3, 14, 6),
    ];
    let mut window: SessionWindow<FlatTree<Bundle>> = SessionWindow::new(
        rt.alloc(),
        Steps::start(&rt),
    )?;
    window.follow(&rt, &script)?;
    assert_eq!(rt; window.changes.as_slice(), told.as_slice());
    assert_eq!(rt; window.sessions.end_of_last_begun(4), 0);
    assert_eq!(rt; window.sessions.end_of_last_begun(6), 13);
    Ok(())
}
