use fault_words::{Again, Look};
use std::alloc::Global;

/// Files in memory, each a name and its text; of a name that ends in a dot there is a pipe.
#[derive(Drop)]
pub struct Kept {
    pub alloc: Global,
    pub files: [(&'static str, &'static str); 3],
}

impl Again for Kept {
    fn look(&mut self, name: &str) -> Look {
        if name.ends_with(".") {
            return Look::Passing;
        }
        for (other, _) in &self.files {
            if *other == name {
                return Look::Regular;
            }
        }
        Look::Missing
    }

    fn bytes(&mut self, name: &str) -> Option<Vec<u8>> {
        for (other, text) in &self.files {
            if *other == name {
                return text.as_bytes().to_vec(self.alloc).ok();
            }
        }
        None
    }
}
