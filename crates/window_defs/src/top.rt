//! How a TOML document reads as window definitions.
ghost use Rattle.std.specs.Prelude.{◌≡◌, ◌≤◌, None, IfSome};
ghost use Rattle.stream_base.specs.Limits.{definitions_of, limit_fault};
ghost use Rattle.toml.specs.View.{table_view};
ghost use Rattle.window_defs.specs.Tables.{has_other};
ghost use Rattle.window_defs.specs.Reading.{Gives, is_top_key, number_up_to, reading_of_top};

use crate::defs_fault::DefsFault;
use crate::table::{array_at, integer_or_zero};
use crate::window::windows_of;
use std::alloc::Global;
use stream_base::{Def, Defs, EVERY_MAX, TIME_MAX, WINDOWS_MAX};
use toml::Table;

/// The definitions of a document.
#[tactic(auto, unfolding(crate::specs::Reading::reading_of_top))]
pub fn read_top(alloc: Global, top: &Table) -> Result<Defs, DefsFault>
    ensures { Gives (λ defs. defs) result (reading_of_top (table_view top.now)) }
{
    let shape = DefsFault::Shape { window: None };
    let limit = DefsFault::Limit { window: None };
    let lateness = integer_or_zero(top, "lateness").ok_or(shape)?;
    let every = integer_or_zero(top, "every").ok_or(shape)?;
    let disorder = integer_or_zero(top, "disorder").ok_or(shape)?;
    let elements = array_at(top, "window").ok_or(shape)?;
    if has_other_key(top) {
        return Err(shape);
    }
    if elements.is_empty() || elements.len() > WINDOWS_MAX {
        return Err(DefsFault::Many);
    }
    let lateness = number_up_to(TIME_MAX, lateness).ok_or(limit)?;
    let every = number_up_to(EVERY_MAX, every).ok_or(limit)?;
    let disorder = number_up_to(TIME_MAX, disorder).ok_or(limit)?;
    let windows = windows_of(alloc, elements)?;
    Ok(definitions(windows, lateness, every, disorder))
}

fn definitions(windows: Vec<Def>, lateness: u64, every: u64, disorder: u64) -> Defs
    requires { limit_fault (definitions_of windows.items lateness every disorder) ≡ None }
    ensures { result ≡ definitions_of windows.items lateness every disorder }
{
    Defs::new(windows, lateness, every, disorder).unwrap()
}

fn has_other_key(top: &Table) -> bool
    ensures { result ≡ has_other is_top_key (table_view top.now) }
{
    for (key, _) in top {
        if !is_top_key(key.as_str()) {
            return true;
        }
    }
    false
}

fn is_top_key(key: &str) -> bool
    ensures { result ≡ is_top_key key.now }
{
    key == "lateness" || key == "every" || key == "disorder" || key == "window"
}

fn number_up_to(most: u64, number: i64) -> Option<u64>
    ensures value { result ≡ number_up_to most number }
    ensures fits { IfSome result (λ n. n ≤ most) }
{
    match u64::try_from(number) {
        Ok(number) if number <= most => Some(number),
        _ => None,
    }
}
