ghost use Rattle.std.specs.Prelude.{◌≡◌, ◌≤◌, ◌<◌, ◌+◌, ◌∷◌, [], ◌++◌, Some, length, take, drop, slice_get};
ghost use Rattle.fiba_nodes.specs.Rows.{listed};

/// At most four things in a row, kept in place.
#[derive(Clone, Copy)]
pub enum Row<T> {
    Empty,
    One(T),
    Two(T, T),
    Three(T, T, T),
    Four(T, T, T, T),
}

impl<T: Copy> Row<T> {
    /// How many there are.
    pub fn len(&self) -> usize
        ensures len { result ≡ length (listed self.now) }
        ensures few { result ≤ 4 }
    {
        match self {
            Row::Empty => 0,
            Row::One(..) => 1,
            Row::Two(..) => 2,
            Row::Three(..) => 3,
            Row::Four(..) => 4,
        }
    }

    /// The one at a place.
    pub fn get(&self, at: usize) -> T
        requires { at < length (listed self.now) }
        ensures { slice_get (listed self.now) at ≡ Some result }
    {
        *self.peek(at)
    }

    /// The one at a place, where it stands.
    pub fn peek(&self, at: usize) -> &T
        requires { at < length (listed self.now) }
        ensures { slice_get (listed self.now) at ≡ Some result.now }
    {
        match self {
            Row::Empty => unreachable!(),
            Row::One(a) => a,
            Row::Two(a, b) => { if at == 0 { a } else { b } }
            Row::Three(a, b, c) => match at {
                0 => a,
                1 => b,
                _ => c,
            },
            Row::Four(a, b, c, d) => match at {
                0 => a,
                1 => b,
                2 => c,
                _ => d,
            },
        }
    }

    /// The row with one more at its end.
    pub fn pushed(&self, last: T) -> Row<T>
        requires { length (listed self.now) < 4 }
        ensures { listed result ≡ listed self.now ++ last ∷ [] }
    {
        match self {
            Row::Empty => Row::One(last),
            Row::One(a) => Row::Two(*a, last),
            Row::Two(a, b) => Row::Three(*a, *b, last),
            Row::Three(a, b, c) => Row::Four(*a, *b, *c, last),
            Row::Four(..) => unreachable!(),
        }
    }

    /// The row and then another one.
    pub fn joined(&self, behind: &Row<T>) -> Row<T>
        requires { length (listed self.now) + length (listed behind.now) ≤ 4 }
        ensures { listed result ≡ listed self.now ++ listed behind.now }
    {
        match (self, behind) {
            (Row::Empty, _) => *behind,
            (_, Row::Empty) => *self,
            (Row::One(a), Row::One(b)) => Row::Two(*a, *b),
            (Row::One(a), Row::Two(b, c)) => Row::Three(*a, *b, *c),
            (Row::One(a), Row::Three(b, c, d)) => Row::Four(*a, *b, *c, *d),
            (Row::Two(a, b), Row::One(c)) => Row::Three(*a, *b, *c),
            (Row::Two(a, b), Row::Two(c, d)) => Row::Four(*a, *b, *c, *d),
            (Row::Three(a, b, c), Row::One(d)) => Row::Four(*a, *b, *c, *d),
            _ => unreachable!(),
        }
    }

    /// The first few of the row.
    pub fn first(&self, count: usize) -> Row<T>
        ensures { listed result ≡ take count (listed self.now) }
    {
        match (self, count) {
            (Row::Empty, _) => Row::Empty,
            (_, 0) => Row::Empty,
            (Row::One(a), _) => Row::One(*a),
            (Row::Two(a, _), 1) => Row::One(*a),
            (Row::Two(a, b), _) => Row::Two(*a, *b),
            (Row::Three(a, _, _), 1) => Row::One(*a),
            (Row::Three(a, b, _), 2) => Row::Two(*a, *b),
            (Row::Three(a, b, c), _) => Row::Three(*a, *b, *c),
            (Row::Four(a, _, _, _), 1) => Row::One(*a),
            (Row::Four(a, b, _, _), 2) => Row::Two(*a, *b),
            (Row::Four(a, b, c, _), 3) => Row::Three(*a, *b, *c),
            (Row::Four(a, b, c, d), _) => Row::Four(*a, *b, *c, *d),
        }
    }

    /// The row from a place on.
    pub fn rest(&self, from: usize) -> Row<T>
        ensures { listed result ≡ drop from (listed self.now) }
    {
        match (self, from) {
            (_, 0) => *self,
            (Row::Two(_, b), 1) => Row::One(*b),
            (Row::Three(_, b, c), 1) => Row::Two(*b, *c),
            (Row::Three(_, _, c), 2) => Row::One(*c),
            (Row::Four(_, b, c, d), 1) => Row::Three(*b, *c, *d),
            (Row::Four(_, _, c, d), 2) => Row::Two(*c, *d),
            (Row::Four(_, _, _, d), 3) => Row::One(*d),
            _ => Row::Empty,
        }
    }
}
