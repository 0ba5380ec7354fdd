//! All sources of a run are opened before one is read, and are given back.
ghost use Rattle.std.specs.Prelude.{◌≡◌, ◌≢◌, ◌≤◌, ◌++◌, [], ◌∷◌, ℕ, List, length, map, string_bytes, IfOk, IfErr, OnErr};
ghost use Rattle.outside.specs.Outside.{refused};
ghost use Rattle.run_inputs.specs.Opening.{AreOpened, IsUnread, StopsAtOpening};
ghost use Rattle.run_inputs.specs.Outside.{GivesBack, OpensInOrder, opens_of};

use emission_text::Fault;
use outside::{Failed, Files};
use source_feed::FileFeed;
use std::alloc::Global;
use stream_base::Defs;

/// The feeds of the sources of these names, in their order. Each is opened, and none is read. Where
/// one can't be opened, those before it are given back, and none behind it is opened.
pub fn open_sources<F: Files>(
    alloc: Global,
    files: &mut F,
    names: &[String],
    defs: &Defs,
) -> Result<Vec<FileFeed<F::Input>>, Fault>
    requires few { length names.now ≤ 16 }
    ensures opened { IfOk result (λ feeds. AreOpened F.Input.reads F.Input.told F.asked F.came
        F.told (map string_bytes names.now) defs.now files.old files.new feeds.items) }
    ensures files { OnErr result (OpensInOrder F.asked F.came F.told (map string_bytes names.now)
        files.old files.new) }
    ensures stopped { IfErr result (StopsAtOpening (map string_bytes names.now)
        (opens_of F.asked F.came files.old files.new)) }
{
    let mut feeds = match Vec::with_capacity(alloc, names.len()) {
        Ok(feeds) => feeds,
        Err(_) => return Err(Fault::NoMemory),
    };
    for i in 0..names.len() {
        match open_source(alloc, files, names[i].as_str(), i as u16, defs) {
            Ok(feed) => feeds.push_reserved(feed),
            Err(Failed) => {
                close_feeds(files, feeds);
                return Err(Fault::Unopened {
                    place: Some(i as u16),
                });
            }
        }
    }
    Ok(feeds)
}

// The feed of the source of this name, which has this number.
fn open_source<F: Files>(
    alloc: Global,
    files: &mut F,
    name: &str,
    number: u16,
    defs: &Defs,
) -> Result<FileFeed<F::Input>, Failed>
    ensures asked { F.asked files.new ≡ F.asked files.old ++ name.now ∷ [] }
    ensures unread { IfOk result (IsUnread F.Input.reads F.Input.told (length (F.asked files.old))
        (F.told files.old name.now) number defs.now) }
    ensures refused { OnErr result (F.came files.new (length (F.asked files.old)) ≡ refused) }
    ensures others { (i : ℕ) → i ≢ length (F.asked files.old)
        → F.came files.new i ≡ F.came files.old i }
    ensures same { (which : List ℕ) → F.told files.new which ≡ F.told files.old which }
{
    match files.open_file(name) {
        Ok(source) => Ok(FileFeed::new(alloc, source, number, defs)),
        Err(failed) => Err(failed),
    }
}

/// Gives the sources of these feeds back.
pub fn close_feeds<F: Files>(files: &mut F, mut feeds: Vec<FileFeed<F::Input>>)
    ensures { GivesBack F.asked F.came F.told (λ f. F.Input.reads f.from)
        (λ f. F.Input.told f.from) feeds.items files.old files.new }
{
    while let Some(feed) = feeds.pop() {
        files.give_back(feed.into_source());
    }
    feeds.destroy_empty();
}
