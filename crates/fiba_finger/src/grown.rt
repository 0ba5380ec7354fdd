/// What an insertion from a finger did: how many nodes it split, and how many levels it climbed.
#[derive(Clone, Copy, Debug, PartialEq, Eq)]
pub struct Grown {
    pub splits: u32,
    pub climbs: u32,
}
