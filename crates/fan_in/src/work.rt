ghost use Rattle.std.specs.Prelude.{◌≡◌, [], All, length, IfOk};
ghost use Rattle.fan_in.specs.Works.{AreNewReaders, AreTakenApart, HasRoom, IsReserved};

use crate::gathered::FeedEnd;
use crate::outcome::Outcome;
use crate::reader::Reader;
use std::alloc::{AllocError, Global};
use stream_base::NoMemory;

// The readers, and room for what comes of them, so that no memory is wanted behind the last read.
pub(crate) struct Work<F, P> {
    pub(crate) readers: Vec<Reader<F, P>>,
    pub(crate) ends: Vec<FeedEnd<F>>,
    pub(crate) rows: Vec<Vec<P>>,
}

// Room for so many readers.
pub(crate) fn make_room<F, P: Drop>(alloc: Global, many: usize) -> Result<Work<F, P>, NoMemory>
    ensures { IfOk result (HasRoom many) }
{
    let rows = Vec::with_capacity(alloc, many)?;
    let ends: Vec<FeedEnd<F>> = Vec::with_capacity(alloc, many)?;
    match Vec::with_capacity(alloc, many) {
        Ok(readers) => Ok(Work {
            readers,
            ends,
            rows,
        }),
        Err(AllocError) => {
            ends.destroy_empty();
            Err(NoMemory)
        }
    }
}

// A row for each source, with no port yet.
pub(crate) fn empty_rows<P: Drop>(alloc: Global, sources: u16) -> Result<Vec<Vec<P>>, NoMemory>
    ensures many { IfOk result (λ rows. length rows.items ≡ sources) }
    ensures none { IfOk result (λ rows. All (λ row. row.items ≡ []) rows.items) }
{
    let mut rows = Vec::new(alloc);
    for _i in 0..sources {
        rows.push(Vec::new(alloc))?;
    }
    Ok(rows)
}

// Makes a reader of each feed and its row of ports, the last one first.
pub(crate) fn fill<F, P: Drop>(
    readers: &mut Vec<Reader<F, P>>,
    mut feeds: Vec<F>,
    mut rows: Vec<Vec<P>>,
)
    requires room { IsReserved (length feeds.items) readers.old }
    requires one_each { length rows.items ≡ length feeds.items }
    ensures many { length readers.new.items ≡ length feeds.items }
    ensures each { AreNewReaders feeds.items rows.items readers.new.items }
{
    for _i in 0..feeds.len() {
        readers.push_reserved(Reader {
            feed: feeds.pop().unwrap(),
            outcome: Outcome::Done,
            ports: rows.pop().unwrap(),
        });
    }
    feeds.destroy_empty();
}

// What came of the readers, once they were filled in and have read.
pub(crate) fn take_apart<F, P: Drop>(work: Work<F, P>) -> (Vec<FeedEnd<F>>, Vec<Vec<P>>)
    requires ends { IsReserved (length work.readers.items) work.ends }
    requires rows { IsReserved (length work.readers.items) work.rows }
    ensures many_ends { length result.0.items ≡ length work.readers.items }
    ensures many_rows { length result.1.items ≡ length work.readers.items }
    ensures each { AreTakenApart work.readers.items result.0.items result.1.items }
{
    let Work {
        readers,
        mut ends,
        mut rows,
    } = work;
    take_readers(readers, &mut ends, &mut rows);
    (ends, rows)
}

// Takes the readers apart again, the last one first, which is the first feed's.
fn take_readers<F, P: Drop>(
    mut readers: Vec<Reader<F, P>>,
    ends: &mut Vec<FeedEnd<F>>,
    rows: &mut Vec<Vec<P>>,
)
    requires ends { IsReserved (length readers.items) ends.old }
    requires rows { IsReserved (length readers.items) rows.old }
    ensures many_ends { length ends.new.items ≡ length readers.items }
    ensures many_rows { length rows.new.items ≡ length readers.items }
    ensures each { AreTakenApart readers.items ends.new.items rows.new.items }
{
    for _i in 0..readers.len() {
        let Reader {
            feed,
            outcome,
            ports,
        } = readers.pop().unwrap();
        ends.push_reserved(FeedEnd { feed, outcome });
        rows.push_reserved(ports);
    }
    readers.destroy_empty();
}
