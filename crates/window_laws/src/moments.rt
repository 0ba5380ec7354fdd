//! What is known of a key after one entry more.
ghost use Rattle.std.specs.Prelude.{◌≡◌, ◌++◌, ◌∷◌, List, ℕ, [], true, false, None, Some, length};
ghost use Rattle.stream_base.specs.declared.entry.Entry.{Entry};
ghost use Rattle.stream_base.specs.declared.kept.Kept.{Kept};
ghost use Rattle.stream_base.specs.Limits.{Definitions};
ghost use Rattle.stream_base.specs.Model.Changes.{moment_of};
ghost use Rattle.stream_base.specs.Model.Watermark.{water_of};
ghost use Rattle.stream_base.specs.Model.What.{is_late, is_progress, mark_in, tuple_in};
ghost use Rattle.window_laws.specs.After.{at_water, with_mark, with_tuple};

/// After one entry more a key has one tuple more or one mark more, where the entry is that and not
/// late, or stands at another watermark, where it is a word on the progress of a source. A late entry
/// and one of another key leave it.
pub fn entry_adds_to_a_key_or_moves_it()
    ensures tuple { (d : Definitions) (sources : ℕ) (key : List ℕ) (before : List Entry) (e : Entry)
        (x : Kept) → is_late d.lateness (water_of sources before) e.what ≡ false
        → tuple_in key (length before) e.what ≡ Some x
        → moment_of d sources key (before ++ e ∷ [])
        ≡ with_tuple (moment_of d sources key before) x }
    ensures mark { (d : Definitions) (sources : ℕ) (key : List ℕ) (before : List Entry) (e : Entry)
        (time : ℕ) → is_late d.lateness (water_of sources before) e.what ≡ false
        → mark_in key e.what ≡ Some time → moment_of d sources key (before ++ e ∷ [])
        ≡ with_mark (moment_of d sources key before) time }
    ensures progress { (d : Definitions) (sources : ℕ) (key : List ℕ) (before : List Entry)
        (e : Entry) → is_progress e.what ≡ true → moment_of d sources key (before ++ e ∷ [])
        ≡ at_water (moment_of d sources key before) (water_of sources (before ++ e ∷ [])) }
    ensures late { (d : Definitions) (sources : ℕ) (key : List ℕ) (before : List Entry) (e : Entry)
        → is_late d.lateness (water_of sources before) e.what ≡ true
        → moment_of d sources key (before ++ e ∷ []) ≡ moment_of d sources key before }
    ensures other { (d : Definitions) (sources : ℕ) (key : List ℕ) (before : List Entry) (e : Entry)
        → is_progress e.what ≡ false → tuple_in key (length before) e.what ≡ None
        → mark_in key e.what ≡ None
        → moment_of d sources key (before ++ e ∷ []) ≡ moment_of d sources key before }
{}
