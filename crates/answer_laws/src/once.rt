//! How often the same words may end in another way, over the same files.
ghost use Rattle.run_inputs.specs.Outside.{Telling};
ghost use Rattle.answer_laws.specs.Once.{CheckMayEnd, EndOnce, EndOnceButFor, MadeMayEnd, MayDiffer, RunMayEnd};

use model_laws::routes::journals_of_one_source_hold_its_routed_entries;
use outside::Sink;
use report_check::laws::text_has_one_finding;

/// Two runs of the same words over files that tell the same bytes, of which no call failed, end with
/// one status and one text; but several sources may come to their shards in another order, and
/// another one of the shards may be named to which too many entries go.
pub fn told_files_have_one_answer<K: Sink>()
    ensures { (told : Telling) → EndOnceButFor MayDiffer (RunMayEnd K.taken K.faults told) }
{
    journals_of_one_source_hold_its_routed_entries();
}

/// Two checks of the same words over files that tell the same bytes, of which no call failed, end
/// with one status and one text.
pub fn told_files_have_one_finding<K: Sink>()
    ensures { (told : Telling) → EndOnce (CheckMayEnd K.taken K.faults told) }
{
    text_has_one_finding();
}

/// Two made runs of the same words, of which no write failed, end with one status and one text.
pub fn made_run_has_one_summary<K: Sink>()
    ensures { EndOnce (MadeMayEnd K.taken K.faults) }
{}
