ghost use Rattle.std.specs.Prelude.{◌≡◌, length};
ghost use Rattle.shard_core.specs.Engines.{IsTableOf};
ghost use Rattle.shard_core.specs.Shard.{slices_after};

use crate::keys::KeyTable;
use crate::past::Past;
use key_windows::{AnyKey, KeyWindows};
use stream_base::KeyText;

impl<K: AnyKey> KeyTable<K> {
    // How many slices what isn't settled of a key has: none where the key has no place. Its state
    // may stand under an earlier watermark than that of the past.
    pub fn slice_count(&self, past: &Past, key: &KeyText) -> u64
        requires { IsTableOf K.key_of K.fits K.next_position past.now self.now }
        ensures { result
            ≡ length (slices_after past.now.defs past.now.sources past.now.journal key.now) }
    {
        match self.index.get(key) {
            Some(place) => {
                let slot = &self.slots[place];
                slot.state.slice_count(past.defs(), past.water())
            }
            None => 0,
        }
    }
}
