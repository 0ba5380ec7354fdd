ghost use Rattle.std.specs.Prelude.{◌≡◌, ◌≤◌, ◌<◌};
ghost use Rattle.stream_base.specs.Model.Routes.{goes_to, number_of, shard_of};

use stream_base::{KeyText, What};

/// The shard of a key, among so many shards: the number of its bytes to the base 31, modulo 2^32
/// and then modulo the shards.
pub fn route(key: &KeyText, shards: u16) -> u16
    requires { 1 ≤ shards }
    ensures value { result ≡ shard_of key.now shards }
    ensures within { result < shards }
{
    (hash(key.bytes()) % u32::from(shards)) as u16
}

/// Whether an entry goes to a shard, among so many shards: a tuple or mark goes to the shard of its
/// key, and a word on the progress of its source to every shard.
pub fn goes_to(what: &What, shards: u16, shard: u16) -> bool
    requires { 1 ≤ shards }
    ensures { result ≡ goes_to shards shard what.now }
{
    match what {
        What::Tuple { key, .. } | What::Mark { key, .. } => route(key, shards) == shard,
        What::Water { .. } | What::Idle | What::End => true,
    }
}

fn hash(key: &[u8]) -> u32
    ensures { result ≡ number_of key.now }
{
    key.iter().fold(0, |number: u32, byte| {
        ((31 * u64::from(number) + u64::from(*byte)) % (1 << 32)) as u32
    })
}
