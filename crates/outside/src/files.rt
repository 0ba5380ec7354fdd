ghost use Rattle.std.specs.Prelude.{◌≡◌, ◌≢◌, ◌++◌, ◌∷◌, [], ℕ, List, Option, length, IfOk, IfSome, OnOk, OnErr};
ghost use Rattle.outside.specs.Outside.{Came, KeepsWord, back, nothing_read, out, refused};

use crate::source::{Failed, Source};

/// Sources under names.
pub trait Files {
    type Input: Source + Send;

    // The bytes under each name, where they are told.
    ghost told: { Self → List ℕ → Option (List ℕ) };

    // The names that were to be opened, in order.
    ghost asked: { Self → List (List ℕ) };

    // What became of the open of each number, from 0.
    ghost came: { Self → ℕ → Came };

    /// Opens the source of that name.
    fn open_file(&mut self, name: &str) -> Result<Self::Input, Failed>
        ensures asked { asked self.new ≡ asked self.old ++ name.now ∷ [] }
        ensures fresh { IfOk result (λ source.
            Self.Input.reads source ≡ nothing_read (length (asked self.old))) }
        ensures content { IfOk result (λ source. Self.Input.told source ≡ told self.old name.now) }
        ensures out { OnOk result (came self.new (length (asked self.old)) ≡ out) }
        ensures refused { OnErr result (came self.new (length (asked self.old)) ≡ refused) }
        ensures others { (i : ℕ) → i ≢ length (asked self.old)
            → came self.new i ≡ came self.old i }
        ensures same { (which : List ℕ) → told self.new which ≡ told self.old which };

    /// Takes an opened source back, with what was read of it.
    fn give_back(&mut self, source: Self::Input)
        ensures asked { asked self.new ≡ asked self.old }
        ensures back { let reads = Self.Input.reads source in
            came self.new reads.place ≡ back reads }
        ensures others { (i : ℕ) → i ≢ (Self.Input.reads source).place
            → came self.new i ≡ came self.old i }
        ensures word { IfSome (Self.Input.told source) (KeepsWord (Self.Input.reads source)) }
        ensures same { (which : List ℕ) → told self.new which ≡ told self.old which };
}
