ghost use Rattle.std.specs.Prelude.{◌≡◌, ◌≢◌, ◌≤◌, ◌++◌, ◌∷◌, [], ℕ, List, Some, map, length, true, false, IfOk, OnOk, OnErr};
ghost use Rattle.outside.specs.Outside.{Came, back, nothing_read, out, refused, unasked, with_came};
ghost use Rattle.outside.specs.FileLogs.{asked_of, came_of};
ghost use Rattle.std.specs.List.{find};
ghost use Rattle.std.specs.Option.{option_map, option_copied};
ghost use Rattle.outside.specs.Memory.{IsOpened, bytes_under, can_open, is_named};
ghost use Rattle.outside.specs.MemFile.{filed};

use crate::file_log::FileLog;
use crate::files::Files;
use crate::mem_file::MemFile;
use crate::mem_source::MemSource;
use crate::source::Failed;

/// Files in memory. Of two files with one name the first is opened.
#[derive(Drop)]
pub struct MemFiles<'a> {
    files: &'a [MemFile],
    piece: u64,
    log: FileLog,
    ghost some: { 1 ≤ piece },
}

impl<'a> MemFiles<'a> {
    /// These files, each read giving at most `piece` bytes.
    pub fn new(files: &'a [MemFile], piece: u64) -> MemFiles<'a>
        requires { 1 ≤ piece }
        ensures files { result.files.now ≡ files.now }
        ensures piece { result.piece ≡ piece }
        ensures asked { asked_of result.log ≡ [] }
        ensures came { came_of result.log ≡ λ i. unasked }
    {
        MemFiles {
            files,
            piece,
            log: FileLog::start(),
        }
    }
}

impl<'a> Files for MemFiles<'a> {
    type Input = MemSource<'a>;

    ghost told = { λ s name. bytes_under (map filed s.files.now) name };

    ghost asked = { λ s. asked_of s.log };

    ghost came = { λ s. came_of s.log };

    fn open_file(&mut self, name: &str) -> Result<MemSource<'a>, Failed>
        ensures asked { asked_of self.new.log ≡ asked_of self.old.log ++ name.now ∷ [] }
        ensures fresh { IfOk result (λ source.
            source.reads ≡ nothing_read (length (asked_of self.old.log))) }
        ensures content { IfOk result (λ source.
            Some source.whole ≡ bytes_under (map filed self.old.files.now) name.now) }
        ensures out { OnOk result (came_of self.new.log (length (asked_of self.old.log)) ≡ out) }
        ensures refused { OnErr result
            (came_of self.new.log (length (asked_of self.old.log)) ≡ refused) }
        ensures others { (i : ℕ) → i ≢ length (asked_of self.old.log)
            → came_of self.new.log i ≡ came_of self.old.log i }
        ensures same { (which : List ℕ) → bytes_under (map filed self.new.files.now) which
            ≡ bytes_under (map filed self.old.files.now) which }
        ensures opens { OnOk result (can_open (map filed self.old.files.now) name.now ≡ true) }
        ensures refuses { OnErr result (can_open (map filed self.old.files.now) name.now ≡ false) }
        ensures source { IfOk result (λ source. IsOpened (map filed self.old.files.now) name.now
            self.old.piece source) }
        ensures files { self.new.files.now ≡ self.old.files.now }
        ensures piece { self.new.piece ≡ self.old.piece }
    {
        match first_named(self.files, name) {
            Some(file) if !file.refuse => {
                let log = self.log.opened(name);
                Ok(MemSource::opened(&file.bytes, &file.failing, self.piece, log))
            }
            _ => {
                self.log.refused(name);
                Err(Failed)
            }
        }
    }

    fn give_back(&mut self, source: MemSource<'a>) {
        self.log.returned(&source.into_log());
    }
}

fn first_named<'a>(files: &'a [MemFile], name: &str) -> Option<&'a MemFile>
    ensures { option_map filed (option_copied result)
        ≡ find (is_named name.now) (map filed files.now) }
{
    for file in files {
        if file.name.as_str() == name {
            return Some(file);
        }
    }
    None
}
