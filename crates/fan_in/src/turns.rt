// By turns: each shard stands at a desk, and each feed has a pass of every desk.
pub(crate) mod by_source;
pub(crate) mod closing;
pub(crate) mod floor;
pub(crate) mod gather;
pub(crate) mod hand_back;
pub(crate) mod pass;
pub(crate) mod read_out;
