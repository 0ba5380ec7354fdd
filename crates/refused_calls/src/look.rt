use crate::alike::alike;
use crate::trouble::Trouble;
use fan_in::Booked;
use shard_core::Shard;
use stream_base::Entry;
use turnstile::Call;

/// A turn that changes nothing, and compares the shard at the desk with another one.
pub struct Look<'a> {
    pub other: &'a Shard,
    pub entry: &'a Entry,
}

impl Call<Booked> for Look<'_> {
    ghost use Rattle.std.specs.Prelude.{◌≡◌};

    type Reply = Result<(), Trouble>;

    ghost may_run = { λ call fixed number. Unit {0} };

    ghost does = { λ call before after number reply. after ≡ before };

    fn run(self, value: &mut Booked, _number: u64) -> Result<(), Trouble> {
        let Look { other, entry } = self;
        alike(value.shard(), other, entry)
    }
}
