use fault_words::{Again, Look};
use std::fs;
use std::io::ErrorKind;

/// The files of the system, looked at once more.
#[derive(Drop)]
pub struct SystemAgain<'a> {
    pub rt: &'a HostRuntime,
}

impl Again for SystemAgain<'_> {
    fn look(&mut self, name: &str) -> Look {
        match fs::metadata(self.rt, name) {
            Ok(found) if found.is_file() => Look::Regular,
            Ok(found) if found.is_dir() => Look::Folder,
            Ok(_) => Look::Passing,
            Err(error) if error.kind() == ErrorKind::NotFound => Look::Missing,
            Err(_) => Look::Hidden,
        }
    }

    fn bytes(&mut self, name: &str) -> Option<Vec<u8>> {
        if self.look(name) != Look::Regular {
            return None;
        }
        fs::read(self.rt, name).ok()
    }
}
