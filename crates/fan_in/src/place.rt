ghost use Rattle.std.specs.Prelude.{◌≡◌, ◌≤◌, ◌<◌};
ghost use Rattle.fan_in.specs.Routing.{IsOnlyShard};

use source_feed::route;
use stream_base::What;

// Which shard one is, and of how many: at most 16.
#[derive(Clone, Copy)]
pub(crate) struct Place {
    pub(crate) shard: u16,
    pub(crate) shards: u16,
    ghost inside: { shard < shards },
    ghost few: { shards ≤ 16 },
}

impl Place {
    ghost use Rattle.stream_base.specs.Model.Routes.{goes_to};

    // Whether an entry goes to this shard, by the one shard to which it goes.
    pub(crate) fn takes(self, only: Option<u16>) -> bool
        ensures { (what : _) → IsOnlyShard self.shards what only
            → result ≡ goes_to self.shards self.shard what }
    {
        match only {
            Some(shard) => shard == self.shard,
            None => true,
        }
    }
}

// The one shard to which an entry goes, among so many; none where it goes to each of them. A key is
// hashed only where there is more than one shard, and then once.
pub(crate) fn only_shard(what: &What, shards: u16) -> Option<u16>
    ensures { IsOnlyShard shards what.now result }
{
    if shards <= 1 {
        return None;
    }
    match what {
        What::Tuple { key, .. } | What::Mark { key, .. } => Some(route(key, shards)),
        What::Water { .. } | What::Idle | What::End => None,
    }
}
