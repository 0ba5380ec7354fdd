/// What stands under a name.
#[derive(Clone, Copy, Debug, PartialEq, Eq)]
pub enum Look {
    /// A file whose bytes stay where they are.
    Regular,
    /// A folder.
    Folder,
    /// A pipe, a terminal, a device: what was read of it is gone.
    Passing,
    /// Nothing.
    Missing,
    /// It can't be told.
    Hidden,
}

/// Files that are looked at once more, after the program's answer.
pub trait Again {
    /// What stands under the name.
    fn look(&mut self, name: &str) -> Look;

    /// The bytes of the file of this name, if it is one that stays.
    fn bytes(&mut self, name: &str) -> Option<Vec<u8>>;
}
