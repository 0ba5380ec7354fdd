/// A file in memory: its name and bytes, which reads of it fail, and whether it can't be opened.
#[derive(Drop)]
pub struct MemFile {
    pub name: String,
    pub bytes: Vec<u8>,
    pub failing: Vec<u64>,
    pub refuse: bool,
}
