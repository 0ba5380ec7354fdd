ghost use Rattle.std.specs.Prelude.{ℕ, ⊤};
ghost use Rattle.stream_base.specs.declared.entry.Entry.{Entry};

/// Which numbers of passes the entries of a journal may have.
pub trait Numbering {
    // An entry may be made by the pass with this number.
    ghost may: { ℕ → Entry → Type 0 };
}

/// Each pass may make each entry.
#[derive(Drop)]
pub struct AnyPass;

impl Numbering for AnyPass {
    ghost may = { λ number entry. ⊤ };
}
