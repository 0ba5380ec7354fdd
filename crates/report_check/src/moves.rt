//! What an entry changes of a key, of which the moments before it and behind it are known.
ghost use Rattle.std.specs.Prelude.{◌≡◌, ◌++◌, OnOk, true};
ghost use Rattle.stream_base.specs.Model.Changes.{moment_of};
ghost use Rattle.stream_base.specs.Model.What.{is_progress};
ghost use Rattle.report_check.specs.Ledgers.{changes_in};
ghost use Rattle.report_check.specs.Steps.{behind};

use crate::step::Step;
use agg_laws::Steps;
use plain_windows::{View, append_changes, append_completions, count_changes, count_completions};
use stream_base::{Change, KeyText, NoMemory};

/// Appends the changes of a key from one moment to the other.
pub fn append_moved<L>(
    step: &Step,
    key: &KeyText,
    old: &View,
    new: &View,
    out: &mut Vec<Change>,
    steps: &mut Steps<L>,
) -> Result<(), NoMemory>
    requires old { old.now
        ≡ moment_of step.now.defs step.now.sources key.now step.now.past }
    requires new { new.now
        ≡ moment_of step.now.defs step.now.sources key.now (behind step.now) }
    ensures { OnOk result (out.new.items ≡ out.old.items ++ changes_in step.now key.now) }
{
    let count = count_changes(step.defs, old, new);
    out.reserve(count as usize)?;
    append_changes(step.defs, key, old, new, out, steps);
    Ok(())
}

/// Appends what a word on the progress of a source completes of a key.
pub fn append_completed<L>(
    step: &Step,
    key: &KeyText,
    old: &View,
    out: &mut Vec<Change>,
    steps: &mut Steps<L>,
) -> Result<(), NoMemory>
    requires progress { is_progress step.now.entry.what ≡ true }
    requires old { old.now
        ≡ moment_of step.now.defs step.now.sources key.now step.now.past }
    ensures { OnOk result (out.new.items ≡ out.old.items ++ changes_in step.now key.now) }
{
    let count = count_completions(step.defs, old, step.new);
    out.reserve(count as usize)?;
    append_completions(step.defs, key, old, step.new, out, steps);
    Ok(())
}
