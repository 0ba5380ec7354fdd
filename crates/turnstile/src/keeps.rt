ghost use Rattle.std.specs.Prelude.{◌≡◌, ℕ, List};
ghost use Rattle.turnstile.specs.History.{AddsAtMostOne};

/// A value that stands for a list of items, each with the number of the pass that made it, and has
/// a part that no call changes.
pub trait Keeps {
    /// One item of the list.
    type Item;

    /// The part that no call changes, which is plain data.
    type Fixed;

    // The items for which the value stands, in order, each with the number of its pass.
    ghost items: { Self → List (ℕ × Self.Item) };

    // The part that no call changes.
    ghost fixed: { Self → Self.Fixed };
}

/// What one turn does to the value. It adds at most one item, with its own number, at the end.
pub trait Call<T: Keeps> {
    /// What the caller is told.
    type Reply;

    // What the call asks of the fixed part, and of the number of the pass that runs it.
    ghost may_run: { Self → T.Fixed → ℕ → Type 0 };

    // Of the call, the value before and after, the number of the pass, and the reply.
    ghost does: { Self → T → T → ℕ → Self.Reply → Type 0 };

    /// Runs once, on the value under the lock, for the pass with this number.
    fn run(self, value: &mut T, number: u64) -> Self::Reply
        requires { may_run self (T.fixed value.old) number }
        ensures fixed { T.fixed value.new ≡ T.fixed value.old }
        ensures items { AddsAtMostOne number (T.items value.old) (T.items value.new) }
        ensures relation { does self value.old value.new number result };
}
