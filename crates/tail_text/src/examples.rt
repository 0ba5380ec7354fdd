//! A worked example of the text, computed by the checker from the definitions.
ghost use Rattle.std.specs.Prelude.{◌≡◌, [], ◌∷◌, pos, codes};
ghost use Rattle.stream_base.specs.Examples.{tuple, water, end, a};
ghost use Rattle.tail_windows.specs.Examples.{row};
ghost use Rattle.tail_windows.specs.declared.change.TailChange.TheVariants.{New, Again, Dropped};
ghost use Rattle.tail_text.specs.Texts.{tails_text};

/// Under each entry stand the changes for its position, and each shard has its header.
#[tactic(auto, unfolding(stream_base::specs::Model::Opened::all_opened, crate::specs::Texts::tails_text))]
pub fn changes_stand_under_their_entries()
    ensures { tails_text
        ((tuple 1 (pos 1) a ∷ tuple 5 (pos 2) a ∷ tuple 12 (pos 4) a ∷ water 20
        ∷ tuple 7 (pos 8) a ∷ end ∷ []) ∷ (tuple 1 (pos 1) a ∷ []) ∷ [])
        (([] ∷ [] ∷ [] ∷ (New (row 10 2 (pos 3) a) ∷ New (row 20 2 (pos 6) a) ∷ [])
        ∷ (Again (row 10 2 (pos 10) a) ∷ Again (row 20 2 (pos 12) a) ∷ []) ∷ [] ∷ [])
        ∷ ((Dropped ∷ []) ∷ []) ∷ [])
        ≡ codes "shard 0\nj 0 t 1 1 a\nj 0 t 5 2 a\nj 0 t 12 4 a\nj 0 w 20\n+ 10 2 3 a\n+ 20 2 6 a\nj 0 t 7 8 a\n~ 10 2 10 a\n~ 20 2 12 a\nj 0 e\nshard 1\nj 0 t 1 1 a\nx\nend\n" }
{}
