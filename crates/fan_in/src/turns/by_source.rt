ghost use Rattle.std.specs.Prelude.{◌≡◌, ◌+◌};

use crate::booked::BookedBy;
use crate::numbering::Numbering;
use turnstile::Turnstile;

// Each source's entries are made by the pass of the source, whose number is one above the source's.
// So they are those that its pass made, its end among them.
#[derive(Drop)]
pub(crate) struct OwnPass;

impl Numbering for OwnPass {
    ghost may = { λ number entry. number ≡ entry.source + 1 };
}

// A shard each of whose entries was made by the pass of its source.
pub(crate) type BySource = BookedBy<OwnPass>;

// A desk at which each source has a pass of its own.
pub(crate) type SourceDesk = Turnstile<BySource>;
