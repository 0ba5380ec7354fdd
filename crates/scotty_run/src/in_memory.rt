//! What is said of the bytes that files gave, said of those that they tell.
ghost use Rattle.std.specs.Prelude.{◌∷◌, ℕ, List};
ghost use Rattle.scotty_run.specs.Answer.{IsReportOfFiles};
ghost use Rattle.scotty_run.specs.InMemory.{AllTell, IsReportOfTold};
ghost use Rattle.run_inputs.specs.Outside.{AreOver, Opens, Telling};
ghost use Rattle.command_words.specs.Words.{Run};

/// Where files tell their bytes, as those in memory do, a report of what they gave is one of what
/// they tell.
pub fn report_is_of_what_files_tell()
    ensures { (told : Telling) (run : Run) (opens : Opens) (text : List ℕ)
        → AllTell told (run.defs ∷ run.sources) → AreOver told opens
        → IsReportOfFiles run opens text → IsReportOfTold told run text }
{}
