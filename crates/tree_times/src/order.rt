ghost use Rattle.std.specs.Prelude.{◌≡◌, ◌<◌, ◌^◌};
ghost use Rattle.tree_times.specs.Orders.{rank_of};

/// In which order keys come.
#[derive(Clone, Copy)]
pub enum Order {
    /// Each behind all others.
    Rising,
    /// Each far from the one before it, by Fibonacci hashing.
    Scattered,
}

impl Order {
    /// The order with this name.
    pub fn named(name: &str) -> Order {
        if name == "rising" {
            Order::Rising
        } else {
            Order::Scattered
        }
    }

    /// The key at a place. No key stands at two.
    pub fn key(self, place: u64) -> u64
        requires { place < 2 ^ 20 }
        ensures { rank_of self result ≡ place }
    {
        match self {
            Order::Rising => place,
            Order::Scattered => place * 648_055 % (1 << 20),
        }
    }
}
