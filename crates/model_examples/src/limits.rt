//! Numbers, keys and definitions at their limits.
ghost use Rattle.std.specs.Prelude.{◌≡◌, true, false, [], ◌∷◌, Some, None, pos, negsuc, replicate};
ghost use Rattle.stream_base.specs.Examples.{window, are_within};
ghost use Rattle.stream_base.specs.Key.{key_fault};
ghost use Rattle.stream_base.specs.Limits.{is_value, definitions_of, limit_fault};
ghost use Rattle.stream_base.specs.Kinds.{is_kind_within};
ghost use Rattle.stream_base.specs.declared.defs.LimitFault.TheVariants.{Many, Limit};
ghost use Rattle.stream_base.specs.declared.func.Func.TheVariants.{Sum};
ghost use Rattle.stream_base.specs.declared.key_text.KeyFault.TheVariants.{Length, Control};
ghost use Rattle.stream_base.specs.declared.kind.Kind.TheVariants.{Tumbling, Sliding, Session, Marks, Events};

/// The numbers of a window's kind at their limits, and one beyond them.
pub fn kinds_at_their_limits()
    ensures tumbling { are_within (Tumbling 1 ∷ Tumbling 1000000000000000 ∷ []) ≡ true }
    ensures no_length { is_kind_within (Tumbling 0) ≡ false }
    ensures too_long { is_kind_within (Tumbling 1000000000000001) ≡ false }
    ensures sliding { are_within
        (Sliding 1 1 ∷ Sliding 1000 1 ∷ Sliding 1000000000000000 1000000000000 ∷ []) ≡ true }
    ensures no_slide { is_kind_within (Sliding 5 0) ≡ false }
    ensures slide_above_the_length { is_kind_within (Sliding 5 6) ≡ false }
    ensures too_many_slides { is_kind_within (Sliding 1001 1) ≡ false }
    ensures too_long_to_slide { is_kind_within (Sliding 1000000000000001 1000000000000001) ≡ false }
    ensures sessions { are_within (Session 1 ∷ Session 1000000000000000 ∷ Marks ∷ []) ≡ true }
    ensures no_gap { is_kind_within (Session 0) ≡ false }
    ensures gap_too_long { is_kind_within (Session 1000000000000001) ≡ false }
    ensures counts { are_within (Events 1 ∷ Events 4194304 ∷ []) ≡ true }
    ensures no_count { is_kind_within (Events 0) ≡ false }
    ensures count_too_great { is_kind_within (Events 4194305) ≡ false }
{}

/// The first limit that definitions pass: their number, then the three numbers, then the windows in
/// order.
pub fn definitions_at_their_limits()
    ensures none { limit_fault (definitions_of [] 0 0 0) ≡ Some Many }
    ensures most { limit_fault
        (definitions_of (replicate 32 (window Marks Sum)) 1000000000000000 1000000 1000000000000000)
        ≡ None }
    ensures too_many { limit_fault
        (definitions_of (replicate 33 (window (Tumbling 0) Sum)) 1000000000000001 0 0) ≡ Some Many }
    ensures lateness { limit_fault
        (definitions_of (window (Tumbling 0) Sum ∷ []) 1000000000000001 0 0) ≡ Some (Limit None) }
    ensures every { limit_fault (definitions_of (window Marks Sum ∷ []) 0 1000001 0)
        ≡ Some (Limit None) }
    ensures disorder { limit_fault (definitions_of (window Marks Sum ∷ []) 0 0 1000000000000001)
        ≡ Some (Limit None) }
    ensures first_window { limit_fault
        (definitions_of
        (window Marks Sum ∷ window (Session 0) Sum ∷ window (Events 0) Sum ∷ []) 0 0 0)
        ≡ Some (Limit (Some 1)) }
{}

/// Values and keys at their limits: a key's length is looked at first, and then each of its bytes.
pub fn values_and_keys_at_their_limits()
    ensures least { is_value (negsuc 9223372036854775807) ≡ true }
    ensures greatest { is_value (pos 9223372036854775807) ≡ true }
    ensures below { is_value (negsuc 9223372036854775808) ≡ false }
    ensures above { is_value (pos 9223372036854775808) ≡ false }
    ensures no_key { key_fault [] ≡ Some Length }
    ensures short { key_fault (32 ∷ []) ≡ None }
    ensures long { key_fault (replicate 64 255) ≡ None }
    ensures too_long { key_fault (replicate 65 31) ≡ Some Length }
    ensures control { key_fault (97 ∷ 31 ∷ []) ≡ Some Control }
    ensures delete { key_fault (126 ∷ 127 ∷ []) ≡ Some Control }
    ensures beyond_delete { key_fault (128 ∷ []) ≡ None }
{}
