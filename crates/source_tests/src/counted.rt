//! A source in memory that counts its failed reads, for tests to look at.
ghost use Rattle.std.specs.Prelude.{◌≡◌, ◌≤◌, Some};
ghost use Rattle.outside.specs.Outside.{nothing_read};

use outside::{Failed, Files, MemFiles, MemSource, Source};

/// A source in memory, and how many of its reads have failed.
pub struct CountedSource<'a> {
    source: MemSource<'a>,
    faults: u64,
}

impl<'a> CountedSource<'a> {
    /// A source that gives these bytes, at most `piece` a read, and fails at the reads of these
    /// numbers, from 0.
    pub fn new(bytes: &'a [u8], failing: &'a [u64], piece: u64) -> CountedSource<'a>
        requires { 1 ≤ piece }
        ensures { result.source.reads ≡ nothing_read 0 }
    {
        CountedSource {
            source: MemSource::new(bytes, failing, piece),
            faults: 0,
        }
    }

    /// Gives the source up, and answers how many reads have failed.
    pub fn into_faults(self) -> u64
        ensures { result ≡ self.entry.faults }
    {
        let CountedSource { source, faults } = self;
        MemFiles::new(&[], 1).give_back(source);
        faults
    }
}

impl Source for CountedSource<'_> {
    ghost reads = { λ s. s.source.reads };

    ghost told = { λ s. Some s.source.whole };

    fn read(&mut self, buf: &mut [u8]) -> Result<usize, Failed> {
        let answer = self.source.read(buf);
        if answer.is_err() {
            self.faults = self.faults.saturating_add(1);
        }
        answer
    }
}
