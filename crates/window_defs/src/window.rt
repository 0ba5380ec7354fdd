//! How an element of the array of windows reads as a window, and the words that this takes.
ghost use Rattle.std.specs.Prelude.{◌≡◌, ◌≤◌, ◌↔◌, List, Some, [], IsTrue, IsSome, length, map, Err, IfSome, IfNone};
ghost use Rattle.std.specs.Option.{option_map_or};
ghost use Rattle.toml.specs.Data.{Data};
ghost use Rattle.toml.specs.View.{view, table_view};
ghost use Rattle.window_defs.specs.Tables.{has_other};
ghost use Rattle.window_defs.specs.Windows.{IsFunc, kind_named, keys_of, keys_there, kind_word, numbers_of, keyed, keyed_numbers, func_named, func_word, is_number_key, is_window_key, raw_kind_of, raw_window_of, natural, natural_kind, within_limits, kind_of, def_of};
ghost use Rattle.window_defs.specs.Reading.{Gives, window_at, windows_from};
ghost use Rattle.window_defs.specs.Trouble.{IsOfFirstInTrouble};
ghost use Rattle.window_defs.specs.declared.defs_fault.DefsFault.{DefsFault};

use crate::defs_fault::DefsFault;
use crate::keyed_number::KeyedNumber;
use crate::raw_window::RawWindow;
use crate::table::{integer_at, text_at};
use std::alloc::Global;
use stream_base::{Def, Func, Kind};
use toml::{Table, Value};

/// The words that name kinds.
pub const KINDS: [&str; 5] = ["tumbling", "sliding", "session", "marks", "events"];

/// The words that name functions.
pub const FUNCS: [&str; 9] = [
    "count", "sum", "min", "max", "mean", "first", "last", "rises", "trace",
];

// The keys of the numbers of the kinds.
const LENGTH: &str = "length";

const SLIDE: &str = "slide";

const GAP: &str = "gap";

const COUNT: &str = "count";

/// The word for a kind of window.
#[derive(Clone, Copy, Debug, PartialEq, Eq)]
pub enum KindName {
    Tumbling,
    Sliding,
    Session,
    Marks,
    Events,
}

/// A kind of window with its integers as they stand in the text, of any size and sign.
#[derive(Clone, Copy, Debug, PartialEq, Eq)]
pub enum RawKind {
    Tumbling { length: i64 },
    Sliding { length: i64, slide: i64 },
    Session { gap: i64 },
    Marks,
    Events { count: i64 },
}

/// The windows of the elements, or the fault of the first that is in trouble.
pub fn windows_of(alloc: Global, values: &[Value]) -> Result<Vec<Def>, DefsFault>
    requires { length values.now ≤ 32 }
    ensures { Gives (λ windows. windows.items) result (windows_from 0 (map view values.now)) }
{
    let mut windows = Vec::new(alloc);
    for (i, value) in values.iter().enumerate() {
        let window = window_at(i as u32, value)?;
        windows.push(window)?;
    }
    Ok(windows)
}

/// A law: the elements are refused with a fault exactly where it is the fault of an element in trouble
/// and no element before that one is in trouble.
pub fn first_in_trouble_is_named()
    ensures named { (elements : List Data) (fault : DefsFault)
        → (windows_from 0 elements ≡ Err fault) ↔ IsOfFirstInTrouble elements fault }
{}

fn window_at(i: u32, value: &Value) -> Result<Def, DefsFault>
    ensures { Gives (λ window. window) result (window_at i (view value.now)) }
{
    let Some(raw) = raw_window(value) else {
        return Err(DefsFault::Shape { window: Some(i) });
    };
    match def_of(raw) {
        Some(window) => Ok(window),
        None => Err(DefsFault::Limit { window: Some(i) }),
    }
}

#[tactic(auto, unfolding(crate::specs::Windows::raw_window_of))]
fn raw_window(value: &Value) -> Option<RawWindow>
    ensures { result ≡ raw_window_of (view value.now) }
{
    let fields = value.as_table()?;
    let kind = kind_named(text_at(fields, "kind")?)?;
    let func = func_named(text_at(fields, "func")?)?;
    let raw = raw_kind(kind, fields)?;
    if has_other_key(kind, fields) {
        return None;
    }
    Some(RawWindow { kind: raw, func })
}

fn kind_named(word: &str) -> Option<KindName>
    ensures { result ≡ kind_named word.now }
{
    match word {
        "tumbling" => Some(KindName::Tumbling),
        "sliding" => Some(KindName::Sliding),
        "session" => Some(KindName::Session),
        "marks" => Some(KindName::Marks),
        "events" => Some(KindName::Events),
        _ => None,
    }
}

/// Whether a word names a kind.
pub fn is_kind(word: &str) -> bool
    ensures { IsTrue result ↔ IsSome (kind_named word.now) }
{
    kind_named(word).is_some()
}

/// The keys of the numbers of the kind that a word names, in the order in which they are written, and
/// `None` behind them; none where it names no kind.
pub fn number_keys(word: &str) -> [Option<&'static str>; 2]
    ensures { keys_there result ≡ option_map_or keys_of (kind_named word.now) [] }
{
    match kind_named(word) {
        Some(KindName::Tumbling) => [Some(LENGTH), None],
        Some(KindName::Sliding) => [Some(LENGTH), Some(SLIDE)],
        Some(KindName::Session) => [Some(GAP), None],
        Some(KindName::Events) => [Some(COUNT), None],
        Some(KindName::Marks) | None => [None, None],
    }
}

/// The word that names a kind.
pub fn kind_word(kind: &Kind) -> &'static str
    ensures { result.now ≡ kind_word kind.now }
{
    match kind {
        Kind::Tumbling { .. } => "tumbling",
        Kind::Sliding { .. } => "sliding",
        Kind::Session { .. } => "session",
        Kind::Marks => "marks",
        Kind::Events { .. } => "events",
    }
}

/// The numbers of a kind with their keys, in the order in which they are written, and `None` behind
/// them.
pub fn numbers_of(kind: &Kind) -> [Option<KeyedNumber>; 2]
    ensures { keyed_numbers result ≡ numbers_of kind.now }
{
    match *kind {
        Kind::Tumbling { length } => [keyed(LENGTH, length), None],
        Kind::Sliding { length, slide } => [keyed(LENGTH, length), keyed(SLIDE, slide)],
        Kind::Session { gap } => [keyed(GAP, gap), None],
        Kind::Marks => [None, None],
        Kind::Events { count } => [keyed(COUNT, count), None],
    }
}

fn keyed(key: &'static str, number: u64) -> Option<KeyedNumber>
    ensures { keyed result ≡ Some (key.now, number) }
{
    Some(KeyedNumber { key, number })
}

/// The function that a word names.
pub fn func_named(word: &str) -> Option<Func>
    ensures value { result ≡ func_named word.now }
    ensures some { IfSome result (λ func. word.now ≡ func_word func) }
    ensures none { IfNone result (¬ (IsFunc word.now)) }
{
    match word {
        "count" => Some(Func::Count),
        "sum" => Some(Func::Sum),
        "min" => Some(Func::Min),
        "max" => Some(Func::Max),
        "mean" => Some(Func::Mean),
        "first" => Some(Func::First),
        "last" => Some(Func::Last),
        "rises" => Some(Func::Rises),
        "trace" => Some(Func::Trace),
        _ => None,
    }
}

/// The word that names a function.
pub fn func_word(func: Func) -> &'static str
    ensures { result.now ≡ func_word func }
{
    match func {
        Func::Count => "count",
        Func::Sum => "sum",
        Func::Min => "min",
        Func::Max => "max",
        Func::Mean => "mean",
        Func::First => "first",
        Func::Last => "last",
        Func::Rises => "rises",
        Func::Trace => "trace",
    }
}

fn raw_kind(kind: KindName, fields: &Table) -> Option<RawKind>
    ensures { result ≡ raw_kind_of kind (table_view fields.now) }
{
    match kind {
        KindName::Tumbling => {
            let length = integer_at(fields, LENGTH)?;
            Some(RawKind::Tumbling { length })
        }
        KindName::Sliding => {
            let length = integer_at(fields, LENGTH)?;
            let slide = integer_at(fields, SLIDE)?;
            Some(RawKind::Sliding { length, slide })
        }
        KindName::Session => {
            let gap = integer_at(fields, GAP)?;
            Some(RawKind::Session { gap })
        }
        KindName::Marks => Some(RawKind::Marks),
        KindName::Events => {
            let count = integer_at(fields, COUNT)?;
            Some(RawKind::Events { count })
        }
    }
}

fn has_other_key(kind: KindName, fields: &Table) -> bool
    ensures { result ≡ has_other (is_window_key kind) (table_view fields.now) }
{
    for (key, _) in fields {
        if !is_window_key(kind, key.as_str()) {
            return true;
        }
    }
    false
}

fn is_window_key(kind: KindName, key: &str) -> bool
    ensures { result ≡ is_window_key kind key.now }
{
    key == "kind" || key == "func" || is_number_key(kind, key)
}

fn is_number_key(kind: KindName, key: &str) -> bool
    ensures { result ≡ is_number_key kind key.now }
{
    match kind {
        KindName::Tumbling => key == LENGTH,
        KindName::Sliding => key == LENGTH || key == SLIDE,
        KindName::Session => key == GAP,
        KindName::Marks => false,
        KindName::Events => key == COUNT,
    }
}

fn def_of(raw: RawWindow) -> Option<Def>
    ensures { result ≡ def_of raw }
{
    let kind = kind_of(raw.kind)?;
    Some(Def {
        kind,
        func: raw.func,
    })
}

fn kind_of(raw: RawKind) -> Option<Kind>
    ensures { result ≡ kind_of raw }
{
    within_limits(natural_kind(raw)?)
}

fn natural_kind(raw: RawKind) -> Option<Kind>
    ensures { result ≡ natural_kind raw }
{
    match raw {
        RawKind::Tumbling { length } => {
            let length = natural(length)?;
            Some(Kind::Tumbling { length })
        }
        RawKind::Sliding { length, slide } => {
            let length = natural(length)?;
            let slide = natural(slide)?;
            Some(Kind::Sliding { length, slide })
        }
        RawKind::Session { gap } => {
            let gap = natural(gap)?;
            Some(Kind::Session { gap })
        }
        RawKind::Marks => Some(Kind::Marks),
        RawKind::Events { count } => {
            let count = natural(count)?;
            Some(Kind::Events { count })
        }
    }
}

fn natural(number: i64) -> Option<u64>
    ensures { result ≡ natural number }
{
    u64::try_from(number).ok()
}

fn within_limits(kind: Kind) -> Option<Kind>
    ensures { result ≡ within_limits kind }
{
    if kind.is_within_limits() {
        Some(kind)
    } else {
        None
    }
}
