//! How instances of one window are told from a store of slices.
ghost use Rattle.std.specs.Prelude.{◌≡◌, ◌≤◌, ◌<◌, ◌+◌, ◌*◌, ◌^◌, ◌++◌, ◌∷◌, [], ℕ, List, pos, filter, find, length, map, option_to_list};
ghost use Rattle.stream_base.specs.declared.change.Change.TheVariants.{New};
ghost use Rattle.stream_base.specs.Model.Changes.{former_of, row_of};
ghost use Rattle.stream_base.specs.Model.Windows.{Instance};
ghost use Rattle.stream_base.specs.Vectors.{Adds, room};
ghost use Rattle.window_spans.specs.declared.standing.Standing.{Standing};
ghost use Rattle.window_spans.specs.Held.{AreAlignedWith, AreHeld, IsAlignedWith, IsHeld};
ghost use Rattle.window_spans.specs.Parted.{come_if, gone_if, shown_if};
ghost use Rattle.window_spans.specs.Spans.{is_same_span, stands};
ghost use Rattle.window_spans.specs.Telling.{Tells, TellsJoined, as_standing, gone_of, row_for, told_as};

use crate::joining::goes;
use crate::span::Span;
use crate::standing::Standing;
use agg_laws::Steps;
use agg_store::AggStore;
use aggregates::Partial;
use stream_base::{Change, Former, Func, KeyText, Row, Shown};

/// Whose instances are told: a window, by its place among the definitions, and a key.
#[derive(Clone, Copy)]
pub struct Teller<'a> {
    pub window: u32,
    pub key: &'a KeyText,
}

impl Teller<'_> {
    fn row_for(&self, s: &Standing) -> Row
        ensures { result ≡ row_for self.now.window self.now.key.now s.now }
    {
        Row {
            window: self.window,
            key: *self.key,
            low: s.span.low,
            high: s.span.high,
            number: s.former.number,
            shown: s.former.shown,
        }
    }

    /// Tells one that stood as gone, unless the session that a tuple made stands over its span.
    pub fn tell_gone(
        &self,
        stood: Option<Standing>,
        joined: Span,
        water: u64,
        out: &mut Vec<Change>,
    )
        requires spare { length (gone_of self.now.window self.now.key.now water joined
            (option_to_list stood)) ≤ room out.old }
        ensures items { out.new.items ≡ out.old.items
            ++ gone_of self.now.window self.now.key.now water joined (option_to_list stood) }
        ensures adds { Adds (length (gone_of self.now.window self.now.key.now water joined
            (option_to_list stood))) out.old out.new }
    {
        match stood {
            Some(s) if goes(s.span, joined, water) => {
                out.push_reserved(Change::Gone(self.row_for(&s)));
            }
            _ => {}
        }
    }

    // Tells one that stands again, where one of two stood over its span, and else as new.
    fn tell_come(
        &self,
        first: Option<Standing>,
        second: Option<Standing>,
        now: &Standing,
        out: &mut Vec<Change>,
    )
        requires spare { 1 ≤ room out.old }
        ensures items { out.new.items ≡ out.old.items ++ told_as self.now.window self.now.key.now
            now.now (find (λ s. is_same_span now.now.span s.span)
            (option_to_list first ++ option_to_list second)) ∷ [] }
        ensures adds { Adds 1 out.old out.new }
    {
        out.push_reserved(told_as(self.row_for(now), over(first, second, now.span)));
    }

    // Tells one that stands as new.
    fn tell_new(&self, now: &Standing, out: &mut Vec<Change>)
        requires spare { 1 ≤ room out.old }
        ensures items { out.new.items ≡ out.old.items
            ++ New (row_for self.now.window self.now.key.now now.now) ∷ [] }
        ensures adds { Adds 1 out.old out.new }
    {
        out.push_reserved(Change::New(self.row_for(now)));
    }
}

// An update where an instance stood over the span, and else an emission.
fn told_as(row: Row, before: Option<Standing>) -> Change
    ensures { (window : ℕ) (key : List ℕ) (now : Standing) → row ≡ row_for window key now
        → result ≡ told_as window key now before }
{
    match before {
        Some(before) => Change::Again {
            row,
            former: before.former,
        },
        None => Change::New(row),
    }
}

// The one of two that stood over a span.
fn over(first: Option<Standing>, second: Option<Standing>, span: Span) -> Option<Standing>
    ensures { result ≡ find (λ s. is_same_span span s.span)
        (option_to_list first ++ option_to_list second) }
{
    match first {
        Some(s) if is_same(span, s.span) => Some(s),
        _ => over_one(second, span),
    }
}

fn over_one(stood: Option<Standing>, span: Span) -> Option<Standing>
    ensures { result ≡ find (λ s. is_same_span span s.span) (option_to_list stood) }
{
    match stood {
        Some(s) if is_same(span, s.span) => Some(s),
        _ => None,
    }
}

fn is_same(first: Span, second: Span) -> bool
    ensures { result ≡ is_same_span first second }
{
    first.low == second.low && first.high == second.high
}

// What the instance over a span shows, by the fold of its slices.
pub fn standing<M: Partial, S: AggStore<M>, L>(
    store: &S,
    span: Span,
    func: Func,
    steps: &mut Steps<L>,
) -> Standing
    requires aligned { IsAlignedWith (S.stored store.now).slices span }
    requires serves { M.serves func }
    ensures span { result.span ≡ span }
    ensures value { (i : Instance) → IsHeld span (S.stored store.now) i
        → result ≡ as_standing func i }
    ensures cost { steps.new ≤ steps.old + 64 * ((S.stored store.now).reach + 2) }
{
    let partial = store.fold(span.low, span.high, steps);
    Standing {
        span,
        former: former(&partial, func),
    }
}

// What a partial shows, and of how many values.
fn former<M: Partial>(partial: &M, func: Func) -> Former
    requires { M.serves func }
    ensures { (i : Instance) → partial.now ≡ M.of_values (map (λ x. x.value) i.chosen)
        → length i.chosen < 2 ^ 64 → result ≡ former_of func i }
{
    Former {
        number: count_of(partial.show(Func::Count)),
        shown: partial.show(func),
    }
}

fn count_of(shown: Shown) -> u64
    ensures { (n : ℕ) → shown ≡ Shown.Whole (pos n) → n < 2 ^ 64 → result ≡ n }
{
    match shown {
        Shown::Whole(count) => u64::try_from(count).unwrap_or(0),
        Shown::Ratio { .. } => 0,
    }
}

/// Tells the session that a tuple made, if it stands: again, where one of two stood over its span,
/// and else as new.
pub fn tell_joined<M: Partial, S: AggStore<M>, L>(
    teller: &Teller,
    store: &S,
    first: Option<Standing>,
    second: Option<Standing>,
    joined: Span,
    water: u64,
    func: Func,
    out: &mut Vec<Change>,
    steps: &mut Steps<L>,
)
    requires aligned { AreAlignedWith (S.stored store.now).slices
        (filter (stands water) (joined ∷ [])) }
    requires serves { M.serves func }
    requires spare { length (filter (stands water) (joined ∷ [])) ≤ room out.old }
    ensures told { TellsJoined teller.now.window teller.now.key.now water
        (option_to_list first ++ option_to_list second) func joined (S.stored store.now)
        out.old.items out.new.items }
    ensures adds { Adds (length (filter (stands water) (joined ∷ []))) out.old out.new }
    ensures cost { steps.new ≤ steps.old
        + 64 * ((S.stored store.now).reach + 2) * length (filter (stands water) (joined ∷ [])) }
{
    if joined.high <= water {
        let now = standing(store, joined, func, steps);
        teller.tell_come(first, second, &now, out);
    }
}

/// Tells all instances over some spans as new.
pub fn tell_all<M: Partial, S: AggStore<M>, L>(
    teller: &Teller,
    store: &S,
    spans: &[Span],
    func: Func,
    out: &mut Vec<Change>,
    steps: &mut Steps<L>,
)
    requires aligned { AreAlignedWith (S.stored store.now).slices spans.now }
    requires serves { M.serves func }
    requires spare { length spans.now ≤ room out.old }
    ensures told { (is : List Instance) → AreHeld spans.now (S.stored store.now) is → out.new.items
        ≡ out.old.items
        ++ map (λ i. New (row_of teller.now.window teller.now.key.now func i)) is }
    ensures tells { Tells (length spans.now)
        (S.stored store.now).reach out.old out.new steps.old steps.new }
{
    for span in spans {
        let now = standing(store, *span, func, steps);
        teller.tell_new(&now, out);
    }
}

/// What the instance over a span shows, if there is one.
pub fn ask<M: Partial, S: AggStore<M>, L>(
    store: &S,
    span: Option<Span>,
    func: Func,
    steps: &mut Steps<L>,
) -> Option<Standing>
    requires aligned { AreAlignedWith (S.stored store.now).slices (option_to_list span) }
    requires serves { M.serves func }
    ensures span { map (λ s. s.span) (option_to_list result) ≡ option_to_list span }
    ensures value { (is : List Instance) → AreHeld (option_to_list span) (S.stored store.now) is
        → option_to_list result ≡ map (as_standing func) is }
    ensures cost { steps.new
        ≤ steps.old + 64 * ((S.stored store.now).reach + 2) * length (option_to_list result) }
{
    match span {
        Some(span) => Some(standing(store, span, func, steps)),
        None => None,
    }
}

/// Tells the interval over a span as gone, if it stands.
pub fn tell_taken<M: Partial, S: AggStore<M>, L>(
    teller: &Teller,
    store: &S,
    span: Span,
    water: u64,
    func: Func,
    out: &mut Vec<Change>,
    steps: &mut Steps<L>,
)
    requires aligned { IsAlignedWith (S.stored store.now).slices span }
    requires serves { M.serves func }
    requires spare { length (filter (stands water) (span ∷ [])) ≤ room out.old }
    ensures told { (i : Instance) → IsHeld span (S.stored store.now) i → i.bound ≡ i.high
        → out.new.items ≡ out.old.items
        ++ gone_if teller.now.window teller.now.key.now func water i }
    ensures tells { Tells (length (filter (stands water) (span ∷ [])))
        (S.stored store.now).reach out.old out.new steps.old steps.new }
{
    if span.high <= water {
        let was = standing(store, span, func, steps);
        out.push_reserved(Change::Gone(teller.row_for(&was)));
    }
}

/// Tells the interval over a span as new, if it has a tuple and stands.
pub fn tell_part<M: Partial, S: AggStore<M>, L>(
    teller: &Teller,
    store: &S,
    span: Span,
    filled: bool,
    water: u64,
    func: Func,
    out: &mut Vec<Change>,
    steps: &mut Steps<L>,
)
    requires aligned { IsAlignedWith (S.stored store.now).slices span }
    requires serves { M.serves func }
    requires spare { length (shown_if filled water span) ≤ room out.old }
    ensures told { (i : Instance) → IsHeld span (S.stored store.now) i
        → out.new.items ≡ out.old.items
        ++ come_if teller.now.window teller.now.key.now func filled water i }
    ensures tells { Tells (length (shown_if filled water span))
        (S.stored store.now).reach out.old out.new steps.old steps.new }
{
    if filled && span.high <= water {
        let now = standing(store, span, func, steps);
        teller.tell_new(&now, out);
    }
}
