ghost use Rattle.std.specs.Prelude.{◌≡◌, IfSome, length};
ghost use Rattle.compact_log.specs.EntryCells.{IsCellOf, IsEntryHeld, entry_of};

use crate::entry_kind::EntryKind;
use crate::key_place::place_of;
use stream_base::{Entry, KeyText, What};

// An entry in few bytes: its key is told by a place among keys that are held elsewhere.
#[derive(Clone, Copy)]
pub(crate) struct EntryCell {
    pub(crate) time: u64,
    pub(crate) value: i64,
    pub(crate) place: u32,
    pub(crate) source: u16,
    pub(crate) kind: EntryKind,
}

const _: () = prove!(size_of::<EntryCell>() == 24);

// The cell of an entry, if its key stands at this place.
pub(crate) fn packed(entry: &Entry, keys: &[KeyText], place: usize) -> Option<EntryCell>
    ensures { IfSome result (IsCellOf entry.now keys.now) }
{
    let source = entry.source;
    let (time, value, place, kind) = match &entry.what {
        What::Tuple { key, time, value } => {
            (*time, *value, place_of(keys, key, place)?, EntryKind::Tuple)
        }
        What::Mark { key, time } => (*time, 0, place_of(keys, key, place)?, EntryKind::Mark),
        What::Water { time } => (*time, 0, 0, EntryKind::Water),
        What::Idle => (0, 0, 0, EntryKind::Idle),
        What::End => (0, 0, 0, EntryKind::End),
    };
    Some(EntryCell {
        time,
        value,
        place,
        source,
        kind,
    })
}

// The entry that a cell tells.
pub(crate) fn unpacked(cell: &EntryCell, keys: &[KeyText], whole: &[Entry]) -> Entry
    requires { IsEntryHeld (length keys.now) (length whole.now) cell.now }
    ensures { result ≡ entry_of keys.now whole.now cell.now }
{
    let source = cell.source;
    match cell.kind {
        EntryKind::Tuple => Entry {
            source,
            what: What::Tuple {
                key: keys[cell.place as usize],
                time: cell.time,
                value: cell.value,
            },
        },
        EntryKind::Mark => Entry {
            source,
            what: What::Mark {
                key: keys[cell.place as usize],
                time: cell.time,
            },
        },
        EntryKind::Water => Entry {
            source,
            what: What::Water { time: cell.time },
        },
        EntryKind::Idle => Entry {
            source,
            what: What::Idle,
        },
        EntryKind::End => Entry {
            source,
            what: What::End,
        },
        EntryKind::Whole => whole[cell.time as usize],
    }
}
