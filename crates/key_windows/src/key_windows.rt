//! What an engine for the windows of one key promises.
ghost use Rattle.std.specs.Prelude.{◌≡◌, ◌≤◌, ◌<◌, ◌+◌, [], ℕ, List, true, IfOk, vec_len};
ghost use Rattle.stream_base.specs.Model.Moments.{IsWater};
ghost use Rattle.stream_base.specs.declared.kept.Kept.{Kept};
ghost use Rattle.stream_base.specs.declared.limits.TheConstants.{JOURNAL_MAX};
ghost use Rattle.key_windows.specs.Calls.{MakesRoom, MayReserve, MayTakeIn, StandsUnder, StaysAhead};
ghost use Rattle.key_windows.specs.Calls.Call.{Mark, Move, Put};
ghost use Rattle.key_windows.specs.Dues.{LeavesDue, LeavesExact};
ghost use Rattle.key_windows.specs.Promises.{CountsSlices, IsExactlyDue, MarkIsBounded, MarkWithin, MoveIsBounded, MovePaysAhead, MovePaysBehind, NothingDueBefore, PutIsBounded, PutWithin, SomethingDueAt, TakesInMark, TakesInMove, TakesInTuple, WaitsBefore};

use agg_laws::Steps;
use std::alloc::Global;
use stream_base::{Change, Defs, Kept, KeyText, NoMemory};

/// The windows of one key. `put`, `mark` and `water` append exactly the key's changes: retractions
/// first, then emissions and updates, each by window, start and end. The call that makes room comes
/// before each of them, with the same arguments, and answers how many changes to have room for.
///
/// Contracts say for which lists the state stands (`fits`): what is kept of the key in event order, and
/// its marks, under a watermark. A clause that speaks of lists holds for all that it fits.
pub trait KeyWindows: Drop {
    ghost use Rattle.std.specs.Prelude.{ℕ, List};
    ghost use Rattle.stream_base.specs.declared.kept.Kept.{Kept};
    ghost use Rattle.stream_base.specs.Limits.{Definitions};
    ghost use Rattle.stream_base.specs.Model.Changes.{Moment};
    ghost use Rattle.key_windows.specs.Calls.{Call};

    /// The key.
    ghost key_of: { Self → List ℕ };

    /// It stands for these tuples and marks under a watermark.
    ghost fits: { Definitions → List Kept → List ℕ → ℕ → Self → Type 0 };

    /// Under these definitions, room was made for this call.
    ghost is_ready: { Definitions → Call → Self → Type 0 };

    /// How many changes that call was said to need room for.
    ghost promised: { Self → ℕ };

    /// The positions of its tuples are below this one.
    ghost next_position: { Self → ℕ };

    /// At most how many steps a tuple at a time takes that leads from one moment of the key to another.
    ghost put_work: { Definitions → Moment → Moment → ℕ → Self → ℕ };

    /// At most how many steps a mark takes that does so, by the state before and after it.
    ghost mark_work: { Definitions → Moment → Moment → ℕ → Self → Self → ℕ };

    /// A bound on the steps that a tuple at a time takes which leads from one moment of a key to
    /// another, whatever the state is.
    ghost bounds_put: { Definitions → List ℕ → Moment → Moment → ℕ → ℕ → Type 0 };

    /// A bound on the steps of a mark that does so.
    ghost bounds_mark: { Definitions → List ℕ → Moment → Moment → ℕ → ℕ → Type 0 };

    /// A bound on the steps of a move of the watermark that does so, whatever came before it.
    ghost bounds_move: { Definitions → List ℕ → Moment → Moment → ℕ → Type 0 };

    /// What is left of the steps that were paid for.
    ghost credit: { Self → ℕ };

    /// Nothing came before this watermark since the key was moved to it.
    ghost is_ahead: { Definitions → ℕ → Self → Type 0 };

    /// At most how many steps a move from one moment of the key to another takes on credit, by the
    /// state before and after it.
    ghost move_work: { Definitions → Moment → Moment → Self → Self → ℕ };

    /// How many more it takes where something came before the watermark.
    ghost catch_up: { Definitions → ℕ → Self → ℕ };

    /// It can show the functions of all windows.
    ghost serves: { Definitions → Type 0 };

    /// Whether it can.
    fn can_serve(defs: &Defs) -> bool
        ensures { result ≡ true → serves defs.now };

    /// No tuple and no mark yet.
    fn fresh(alloc: Global, defs: &Defs, key: KeyText) -> Result<Self, NoMemory>
        requires { serves defs.now }
        ensures key { IfOk result (λ state. key_of state ≡ key) }
        ensures first { IfOk result (λ state. next_position state ≡ 0) }
        ensures empty { (water : ℕ) → IfOk result (λ state. fits defs.now [] [] water state) }
        ensures credit { IfOk result (λ state. credit state ≡ 0) }
        ensures ahead { (water : ℕ) → IfOk result (λ state. is_ahead defs.now water state) };

    /// Makes room for a tuple at a time.
    fn reserve_put(&mut self, defs: &Defs, time: u64, water: u64) -> Result<u64, NoMemory>
        requires { MayReserve fits defs.now (Put time water) self.old }
        ensures { MakesRoom fits defs.now key_of next_position is_ready promised credit is_ahead
            (Put time water) self.old self.new result };

    /// Takes in an accepted tuple. Answers whether what is due is sure to have stayed: where it does, a
    /// number up to which nothing was due before is one still, and exact if it was.
    fn put<L>(
        &mut self,
        defs: &Defs,
        x: Kept,
        water: u64,
        out: &mut Vec<Change>,
        steps: &mut Steps<L>,
    ) -> bool
        requires comes { MayTakeIn fits defs.now is_ready promised (Put x.time water)
            self.old out.old }
        requires position { next_position self.old ≤ x.position }
        requires few { x.position < JOURNAL_MAX }
        ensures taken { TakesInTuple fits defs.now key_of next_position water x self.old self.new
            out.old out.new }
        ensures work { PutWithin fits defs.now put_work water x self.old steps.old steps.new }
        ensures bound { PutIsBounded fits defs.now key_of bounds_put water x self.old
            steps.old steps.new }
        ensures pace { StaysAhead credit is_ahead defs.now x.time water self.old self.new }
        ensures due { result ≡ true → LeavesDue fits defs.now (key_of self.old) water x
            self.old self.new }
        ensures exact { result ≡ true → LeavesExact fits defs.now (key_of self.old) water x
            self.old };

    /// Makes room for a mark at a time.
    fn reserve_mark(&mut self, defs: &Defs, time: u64, water: u64) -> Result<u64, NoMemory>
        requires { MayReserve fits defs.now (Mark time water) self.old }
        ensures { MakesRoom fits defs.now key_of next_position is_ready promised credit is_ahead
            (Mark time water) self.old self.new result };

    /// Takes in an accepted mark.
    fn mark<L>(
        &mut self,
        defs: &Defs,
        time: u64,
        water: u64,
        out: &mut Vec<Change>,
        steps: &mut Steps<L>,
    )
        requires { MayTakeIn fits defs.now is_ready promised (Mark time water) self.old out.old }
        ensures taken { TakesInMark fits defs.now key_of next_position water time self.old self.new
            out.old out.new }
        ensures work { MarkWithin fits defs.now mark_work water time self.old self.new
            steps.old steps.new }
        ensures bound { MarkIsBounded fits defs.now key_of bounds_mark water time self.old
            steps.old steps.new }
        ensures pace { StaysAhead credit is_ahead defs.now time water self.old self.new };

    /// Makes room for a move of the watermark.
    fn reserve_water(&mut self, defs: &Defs, old: u64, new: u64) -> Result<u64, NoMemory>
        requires { MayReserve fits defs.now (Move old new) self.old }
        ensures { MakesRoom fits defs.now key_of next_position is_ready promised credit is_ahead
            (Move old new) self.old self.new result };

    /// Takes in a move of the watermark.
    fn water<L>(
        &mut self,
        defs: &Defs,
        old: u64,
        new: u64,
        out: &mut Vec<Change>,
        steps: &mut Steps<L>,
    )
        requires { MayTakeIn fits defs.now is_ready promised (Move old new) self.old out.old }
        ensures taken { TakesInMove fits defs.now key_of next_position old new self.old self.new
            out.old out.new }
        ensures room { vec_len out.new ≤ vec_len out.old + promised self.old }
        ensures ahead { IsWater old → is_ahead defs.now new self.new }
        ensures work_ahead { MovePaysAhead fits defs.now is_ahead credit move_work old new
            self.old self.new steps.old steps.new }
        ensures work { MovePaysBehind fits defs.now credit move_work catch_up old new
            self.old self.new steps.old steps.new }
        ensures bound { MoveIsBounded fits defs.now key_of bounds_move old new self.old
            steps.old steps.new };

    /// The first watermark at which something becomes complete, or settled. Up to there the state
    /// stands as it is: a move to below it changes nothing, and need not be told. Later than the final
    /// watermark where nothing is left to become so.
    fn next_due(&self, defs: &Defs, water: u64) -> u64
        requires { StandsUnder fits defs.now water self.now }
        ensures none_before { NothingDueBefore fits defs.now key_of water self.now result }
        ensures waits { WaitsBefore fits defs.now water self.now result }
        ensures some_at { SomethingDueAt fits defs.now key_of water self.now result }
        ensures exact { IsExactlyDue fits defs.now key_of water self.now result };

    /// How many slices its unsettled tuples have under a watermark, its own or a later one.
    fn slice_count(&self, defs: &Defs, water: u64) -> u64
        requires { (w : ℕ) × MayReserve fits defs.now (Move w water) self.now }
        ensures { CountsSlices fits defs.now water self.now result };
}
