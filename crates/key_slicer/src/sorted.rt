//! Changes window by window, in the order of an engine's.
ghost use Rattle.std.specs.Prelude.{◌≡◌, ◌≤◌, not, length, filter};
ghost use Rattle.stream_base.specs.Vectors.{Appends, room};
ghost use Rattle.key_slicer.specs.Sorted.{gone_first, is_gone};

use stream_base::Change;

/// Appends all retractions of these changes, and then all others.
pub fn append_sorted(changes: &[Change], out: &mut Vec<Change>)
    requires { length changes.now ≤ room out.old }
    ensures { Appends (gone_first changes.now) out.old out.new }
{
    append_gone(changes, out);
    append_others(changes, out);
}

// Appends the retractions of these changes. The others may still be appended then.
fn append_gone(changes: &[Change], out: &mut Vec<Change>)
    requires { length changes.now ≤ room out.old }
    ensures gone { Appends (filter is_gone changes.now) out.old out.new }
    ensures spare { length (filter (λ change. not (is_gone change)) changes.now) ≤ room out.new }
{
    for change in changes {
        if is_gone(change) {
            out.push_reserved(*change);
        }
    }
}

// Appends those of these changes that are no retractions.
fn append_others(changes: &[Change], out: &mut Vec<Change>)
    requires { length (filter (λ change. not (is_gone change)) changes.now) ≤ room out.old }
    ensures { Appends (filter (λ change. not (is_gone change)) changes.now) out.old out.new }
{
    for change in changes {
        if !is_gone(change) {
            out.push_reserved(*change);
        }
    }
}

// Whether a change is a retraction.
fn is_gone(change: &Change) -> bool
    ensures { result ≡ is_gone change.now }
{
    matches!(change, Change::Gone(_))
}
