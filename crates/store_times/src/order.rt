ghost use Rattle.std.specs.Prelude.{◌≤◌};

/// In which order tuples come.
#[derive(Clone, Copy)]
pub enum Order {
    /// Each behind all others.
    InOrder,
    /// One in ten less than a thousand late.
    Late,
}

impl Order {
    /// The order with this name.
    pub fn named(name: &str) -> Order {
        if name == "in_order" {
            Order::InOrder
        } else {
            Order::Late
        }
    }

    /// The time of the tuple that comes at a place.
    pub fn time(self, place: u64, seed: u64) -> u64
        ensures { result ≤ place }
    {
        match self {
            Order::InOrder => place,
            Order::Late if place % 10 == 0 => place.saturating_sub((seed >> 33) % 1000),
            Order::Late => place,
        }
    }
}
