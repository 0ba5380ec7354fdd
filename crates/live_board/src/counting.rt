ghost use Rattle.std.specs.Prelude.{◌≡◌, ◌≤◌, ◌<◌, ◌+◌, ◌-◌, ◌^◌, ℕ, [], ◌∷◌, length, slice_index};
ghost use Rattle.model_laws.specs.Counts.{emitted_in, retracted_in};

use crate::tally::Tally;
use compact_log::ChangeRange;
use stream_base::Change;

// The tally behind one entry more, by the changes that it causes. Emissions are counted before
// retractions, so that no count falls below what stands then.
pub fn tally_after(tally: &Tally, changes: &ChangeRange<'_>) -> Tally
    requires entries { tally.now.entries < 2 ^ 64 - 1 }
    requires fit { (w : ℕ) → w < 32
        → slice_index tally.now.counts w + emitted_in w changes.now < 2 ^ 64 }
    requires stood { (w : ℕ) → w < 32
        → retracted_in w changes.now ≤ slice_index tally.now.counts w + emitted_in w changes.now }
    ensures entries { result.entries ≡ tally.now.entries + 1 }
    ensures many { length result.counts ≡ 32 }
    ensures counts { (w : ℕ) → w < 32
        → slice_index result.counts w + retracted_in w changes.now
        ≡ slice_index tally.now.counts w + emitted_in w changes.now }
{
    let mut counts = tally.counts;
    add_emitted(&mut counts, changes);
    take_retracted(&mut counts, changes);
    Tally {
        entries: tally.entries + 1,
        counts,
    }
}

fn add_emitted(counts: &mut [u64; 32], changes: &ChangeRange<'_>)
    requires fit { (w : ℕ) → w < 32 → slice_index counts.old w + emitted_in w changes.now < 2 ^ 64 }
    ensures many { length counts.new ≡ 32 }
    ensures counts { (w : ℕ) → w < 32
        → slice_index counts.new w ≡ slice_index counts.old w + emitted_in w changes.now }
{
    'changes: for at in 0..changes.len() {
        count_emission(counts, &changes.get(at));
    }
}

fn take_retracted(counts: &mut [u64; 32], changes: &ChangeRange<'_>)
    requires stood { (w : ℕ) → w < 32 → retracted_in w changes.now ≤ slice_index counts.old w }
    ensures many { length counts.new ≡ 32 }
    ensures counts { (w : ℕ) → w < 32
        → slice_index counts.new w + retracted_in w changes.now ≡ slice_index counts.old w }
{
    'changes: for at in 0..changes.len() {
        count_retraction(counts, &changes.get(at));
    }
}

// One change more, where it is an emission.
fn count_emission(counts: &mut [u64; 32], change: &Change)
    requires fit { (w : ℕ) → w < 32
        → slice_index counts.old w + emitted_in w (change.now ∷ []) < 2 ^ 64 }
    ensures many { length counts.new ≡ 32 }
    ensures counts { (w : ℕ) → w < 32
        → slice_index counts.new w ≡ slice_index counts.old w + emitted_in w (change.now ∷ []) }
{
    match change {
        Change::New(row) => {
            let at = row.window as usize;
            if at < 32 {
                counts[at] += 1;
            }
        }
        Change::Gone(_) | Change::Again { row: _, former: _ } | Change::Dropped => {}
    }
}

// One change more, where it is a retraction.
fn count_retraction(counts: &mut [u64; 32], change: &Change)
    requires stood { (w : ℕ) → w < 32
        → retracted_in w (change.now ∷ []) ≤ slice_index counts.old w }
    ensures many { length counts.new ≡ 32 }
    ensures counts { (w : ℕ) → w < 32
        → slice_index counts.new w + retracted_in w (change.now ∷ []) ≡ slice_index counts.old w }
{
    match change {
        Change::Gone(row) => {
            let at = row.window as usize;
            if at < 32 {
                counts[at] -= 1;
            }
        }
        Change::New(_) | Change::Again { row: _, former: _ } | Change::Dropped => {}
    }
}
