ghost use Rattle.std.specs.Prelude.{◌≤◌};

use stream_base::Defs;

/// What is gathered: the definitions of all shards, and how many sources and shards there are: at
/// least one of each, and at most 16.
#[derive(Drop)]
pub struct Plan {
    pub defs: Defs,
    pub sources: u16,
    pub shards: u16,
    pub ghost some_sources: { 1 ≤ sources },
    pub ghost few_sources: { sources ≤ 16 },
    pub ghost some_shards: { 1 ≤ shards },
    pub ghost few_shards: { shards ≤ 16 },
}
