ghost use Rattle.std.specs.Prelude.{◌≡◌, true};
ghost use Rattle.stream_base.specs.Model.Journals.{is_entry_within};

use std::marker::Model;
use stream_base::Entry;

// An entry as it lies in a lane, within the limits. Contracts see the entry.
#[derive(Drop)]
pub(crate) struct Message {
    entry: Entry,
}

impl Model for Message {
    ghost use Rattle.std.specs.Prelude.{◌≡◌, true};
    ghost use Rattle.stream_base.specs.declared.entry.Entry.{Entry};
    ghost use Rattle.stream_base.specs.Model.Journals.{is_entry_within};

    ghost Value = { Entry };

    ghost view = { λ m. m.entry };

    ghost invariant = { λ m. is_entry_within m.entry ≡ true };
}

impl Message {
    pub(crate) fn new(entry: Entry) -> Message
        requires { is_entry_within entry ≡ true }
        ensures { result ≡ entry }
    {
        Message { entry }
    }

    // The entry.
    pub(crate) fn entry(&self) -> &Entry
        ensures value { result.now ≡ self.now }
        ensures within { is_entry_within self.now ≡ true }
    {
        &self.entry
    }
}
