use stream_base::Defs;

/// What no turn of a desk changes: its shard's definitions, and the number of its sources.
#[derive(Drop)]
pub struct FixedPart {
    pub defs: Defs,
    pub sources: u16,
}
