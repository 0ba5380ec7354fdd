//! Keys of tuples and marks at their limits.
ghost use Rattle.std.specs.Prelude.{◌≡◌, [], ◌∷◌, pos, replicate};
ghost use Rattle.stream_base.specs.Examples.{tuple, mark};
ghost use Rattle.source_feed.specs.declared.row_why.RowWhy.TheVariants.{Key};
ghost use Rattle.source_examples.specs.Spelled.{mark_of_key, refused, stream, tuple_of_key, whole};

/// A tuple's key is 1 to 64 bytes, none below 0x20 and none 0x7F. It needn't be UTF-8.
#[tactic(auto, unfolding(crate::proofs::Opened::sources_opened))]
pub fn keys_of_tuples_at_their_limits()
    ensures short { stream (tuple_of_key (32 ∷ [])) ≡ whole (tuple 1 (pos 5) (32 ∷ []) ∷ []) }
    ensures long { stream (tuple_of_key (replicate 64 255))
        ≡ whole (tuple 1 (pos 5) (replicate 64 255) ∷ []) }
    ensures too_long { stream (tuple_of_key (replicate 65 120)) ≡ refused [] 1 Key }
    ensures none { stream (tuple_of_key []) ≡ refused [] 1 Key }
    ensures control { stream (tuple_of_key (120 ∷ 31 ∷ [])) ≡ refused [] 1 Key }
    ensures delete { stream (tuple_of_key (120 ∷ 127 ∷ [])) ≡ refused [] 1 Key }
    ensures beside_delete { stream (tuple_of_key (126 ∷ 128 ∷ []))
        ≡ whole (tuple 1 (pos 5) (126 ∷ 128 ∷ []) ∷ []) }
{}

/// So is a mark's.
#[tactic(auto, unfolding(crate::proofs::Opened::sources_opened))]
pub fn keys_of_marks_at_their_limits()
    ensures short { stream (mark_of_key (32 ∷ [])) ≡ whole (mark 1 (32 ∷ []) ∷ []) }
    ensures long { stream (mark_of_key (replicate 64 255))
        ≡ whole (mark 1 (replicate 64 255) ∷ []) }
    ensures too_long { stream (mark_of_key (replicate 65 120)) ≡ refused [] 1 Key }
    ensures none { stream (mark_of_key []) ≡ refused [] 1 Key }
    ensures control { stream (mark_of_key (120 ∷ 31 ∷ [])) ≡ refused [] 1 Key }
    ensures delete { stream (mark_of_key (120 ∷ 127 ∷ [])) ≡ refused [] 1 Key }
{}
