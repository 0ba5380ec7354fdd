ghost use Rattle.std.specs.Prelude.{◌≡◌, false};

/// Where a node stands: on the left edge of its tree or not, and on the right edge or not. The
/// aggregate of a node on an edge leaves out the child on that edge.
#[derive(Clone, Copy)]
pub struct Place {
    pub left: bool,
    pub right: bool,
}

impl Place {
    /// Off both edges.
    pub fn inner() -> Place
        ensures { result ≡ record { left = false; right = false } }
    {
        Place {
            left: false,
            right: false,
        }
    }

    /// The place of a node before another one that shares this place.
    pub fn front(self) -> Place
        ensures { result ≡ record { left = self.left; right = false } }
    {
        Place {
            left: self.left,
            right: false,
        }
    }

    /// The place of a node behind another one that shares this place.
    pub fn back(self) -> Place
        ensures { result ≡ record { left = false; right = self.right } }
    {
        Place {
            left: false,
            right: self.right,
        }
    }
}
