//! Files that note which names were to be opened, in which order, and what became of each open.
ghost use Rattle.std.specs.Prelude.{◌≡◌};

use outside::{Failed, Files, Source};
use std::alloc::Global;

/// What became of an open: it was refused, its source is out, or that came back: unread, read in part,
/// read to its end, or with a failed read.
#[derive(Clone, Copy, PartialEq, Eq)]
pub enum Fate {
    Refused,
    Out,
    Unread,
    Part,
    Whole,
    Failed,
}

impl Fate {
    /// The word of a row for it.
    pub fn word(self) -> &'static str {
        match self {
            Fate::Refused => "refused",
            Fate::Out => "out",
            Fate::Unread => "unread",
            Fate::Part => "part",
            Fate::Whole => "whole",
            Fate::Failed => "failed",
        }
    }

    // How far a source was read, after one read more with room.
    fn then(self, answer: &Result<usize, Failed>) -> Fate {
        if self == Fate::Failed {
            return self;
        }
        match answer {
            Ok(0) => Fate::Whole,
            Ok(_) => Fate::Part,
            Err(_) => Fate::Failed,
        }
    }
}

/// A source, the number of its open, and how far it was read.
pub struct NotedSource<S: Source> {
    source: S,
    number: usize,
    fate: Fate,
}

impl<S: Source> Source for NotedSource<S> {
    ghost reads = { λ s. S.reads s.source };

    ghost told = { λ s. S.told s.source };

    fn read(&mut self, buf: &mut [u8]) -> Result<usize, Failed> {
        let has_room = !buf.is_empty();
        let answer = self.source.read(buf);
        if has_room {
            self.fate = self.fate.then(&answer);
        }
        answer
    }
}

/// A name that was to be opened, and what became of it.
#[derive(Drop)]
pub struct Open {
    pub name: String,
    pub fate: Fate,
}

/// Files, and what was to be opened of them, in order.
#[derive(Drop)]
pub struct NotedFiles<F: Files> {
    alloc: Global,
    files: F,
    opens: Vec<Open>,
}

impl<F: Files + Drop> NotedFiles<F> {
    /// These files, of which nothing was to be opened.
    pub fn new(alloc: Global, files: F) -> NotedFiles<F> {
        NotedFiles {
            alloc,
            files,
            opens: Vec::new(alloc),
        }
    }

    /// What was to be opened, in order.
    pub fn into_opens(self) -> Vec<Open> {
        let NotedFiles { opens, .. } = self;
        opens
    }
}

impl<F: Files> Files for NotedFiles<F> {
    type Input = NotedSource<F::Input>;

    ghost told = { λ s. F.told s.files };

    ghost asked = { λ s. F.asked s.files };

    ghost came = { λ s. F.came s.files };

    fn open_file(&mut self, name: &str) -> Result<NotedSource<F::Input>, Failed> {
        let number = self.opens.len();
        let answer = self.files.open_file(name);
        match answer {
            Ok(source) => {
                note(self.alloc, &mut self.opens, name, Fate::Out);
                Ok(NotedSource {
                    source,
                    number,
                    fate: Fate::Unread,
                })
            }
            Err(failed) => {
                note(self.alloc, &mut self.opens, name, Fate::Refused);
                Err(failed)
            }
        }
    }

    fn give_back(&mut self, source: NotedSource<F::Input>) {
        let NotedSource {
            source,
            number,
            fate,
        } = source;
        if let Some(open) = self.opens.get_mut(number) {
            open.fate = fate;
        }
        self.files.give_back(source);
    }
}

// What can't be noted for want of memory is missed by the row.
fn note(alloc: Global, opens: &mut Vec<Open>, name: &str, fate: Fate) {
    if let Ok(name) = String::from_str(alloc, name) {
        let _ = opens.push(Open { name, fate });
    }
}
