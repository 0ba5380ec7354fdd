ghost use Rattle.std.specs.Prelude.{◌≡◌, [], IfOk};
ghost use Rattle.model_laws.specs.Rows.{rows_after};

use compact_log::Changes;
use standing_rows::StandingRows;
use std::alloc::Global;
use stream_base::NoMemory;

// The rows that stand behind these changes, where nothing stood before them.
#[tactic(auto, using(crate::proofs::StandingFacts::rows_behind_more))]
pub fn rows_behind(alloc: Global, changes: &Changes) -> Result<StandingRows, NoMemory>
    ensures { IfOk result (λ rows. rows ≡ rows_after [] changes.now.items) }
{
    let mut rows = StandingRows::new(alloc);
    for at in 0..changes.len() {
        rows.apply(&changes.get(at))?;
    }
    Ok(rows)
}
