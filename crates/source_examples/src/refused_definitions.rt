//! Definitions files that are refused, and which refusal is the first.
ghost use Rattle.std.specs.Prelude.{◌≡◌, ◌++◌, ℕ, false, List, [], ◌∷◌, length, Some, None, Err, codes};
ghost use Rattle.std.specs.Str.{is_utf8};
ghost use Rattle.window_defs.specs.Reading.{reading_of};
ghost use Rattle.window_defs.specs.declared.defs_fault.DefsFault.TheVariants.{Long, Toml, Shape, Many, Limit};
ghost use Rattle.source_examples.specs.Spelled.{in_one_window, one_window, with_windows};

/// Bytes that aren't UTF-8, or no TOML document, are refused before all that they say. An integer
/// beyond 64 bits is none of TOML.
#[tactic(auto, unfolding(crate::proofs::Opened::definitions_opened))]
pub fn no_document()
    ensures no_value { reading_of (codes "lateness =") ≡ Err Toml }
    ensures no_text { reading_of (codes "# " ++ 255 ∷ codes "\n" ++ one_window) ≡ Err Toml }
    ensures twice { reading_of (codes "late = 1\nlate = 2\n" ++ one_window) ≡ Err Toml }
    ensures too_great { reading_of (codes "lateness = 9223372036854775808\n" ++ one_window)
        ≡ Err Toml }
{}

/// A file of 1,048,577 bytes is refused for its length, whatever they are. One of 1,048,576 isn't:
/// here it is no text.
pub fn too_many_bytes()
    ensures most { (bytes : List ℕ) → length bytes ≡ 1048576 → is_utf8 bytes ≡ false
        → reading_of bytes ≡ Err Toml }
    ensures one_more { (bytes : List ℕ) → length bytes ≡ 1048577 → reading_of bytes ≡ Err Long }
{}

/// The top has no other keys, its three numbers are integers, and its windows an array.
#[tactic(auto, unfolding(crate::proofs::Opened::definitions_opened))]
pub fn shape_of_the_top()
    ensures nothing { reading_of [] ≡ Err (Shape None) }
    ensures no_window { reading_of (codes "lateness = 1\n") ≡ Err (Shape None) }
    ensures no_array { reading_of (codes "window = 1\n") ≡ Err (Shape None) }
    ensures table { reading_of (codes "[window]\nkind = 'marks'\nfunc = 'sum'\n")
        ≡ Err (Shape None) }
    ensures unknown { reading_of (codes "late = 1\n" ++ one_window) ≡ Err (Shape None) }
    ensures capital { reading_of (codes "Lateness = 1\n" ++ one_window) ≡ Err (Shape None) }
    ensures lateness { reading_of (codes "lateness = 1.0\n" ++ one_window) ≡ Err (Shape None) }
    ensures every { reading_of (codes "every = '1'\n" ++ one_window) ≡ Err (Shape None) }
    ensures disorder { reading_of (codes "disorder = true\n" ++ one_window) ≡ Err (Shape None) }
{}

/// The shape of the top comes before the number of windows, and before its limits.
#[tactic(auto, unfolding(crate::proofs::Opened::definitions_opened))]
pub fn shape_of_the_top_comes_first()
    ensures before_many { reading_of (codes "late = 1\nwindow = []\n") ≡ Err (Shape None) }
    ensures before_its_limits { reading_of (codes "late = 1\nlateness = -1\n" ++ one_window)
        ≡ Err (Shape None) }
    ensures number_before_many { reading_of (codes "lateness = 1.5\nwindow = []\n")
        ≡ Err (Shape None) }
    ensures number_before_a_limit { reading_of (codes "lateness = -1\nevery = 1.5\n" ++ one_window)
        ≡ Err (Shape None) }
    ensures windows_before_a_limit { reading_of (codes "lateness = -1\n") ≡ Err (Shape None) }
    ensures before_a_window { reading_of (codes "late = 1\nwindow = [1]\n") ≡ Err (Shape None) }
{}

/// There are 1 to 32 windows. Their number comes before the limits of the top, and before the shape
/// of each.
#[tactic(auto, unfolding(crate::proofs::Opened::definitions_opened))]
pub fn number_of_windows()
    ensures none { reading_of (codes "window = []\n") ≡ Err Many }
    ensures before_a_limit { reading_of (codes "lateness = -1\nwindow = []\n") ≡ Err Many }
    ensures most { reading_of (with_windows 32) ≡ Err (Shape (Some 0)) }
    ensures too_many { reading_of (with_windows 33) ≡ Err Many }
{}

/// The three numbers are within their limits, and come before the windows.
#[tactic(auto, unfolding(crate::proofs::Opened::definitions_opened))]
pub fn limits_of_the_top()
    ensures lateness { reading_of (codes "lateness = 1000000000000001\n" ++ one_window)
        ≡ Err (Limit None) }
    ensures negative { reading_of (codes "lateness = -1\n" ++ one_window) ≡ Err (Limit None) }
    ensures every { reading_of (codes "every = 1000001\n" ++ one_window) ≡ Err (Limit None) }
    ensures every_negative { reading_of (codes "every = -1\n" ++ one_window) ≡ Err (Limit None) }
    ensures disorder { reading_of (codes "disorder = 1000000000000001\n" ++ one_window)
        ≡ Err (Limit None) }
    ensures disorder_negative { reading_of (codes "disorder = -1\n" ++ one_window)
        ≡ Err (Limit None) }
    ensures before_a_window { reading_of (codes "lateness = -1\nwindow = [1]\n")
        ≡ Err (Limit None) }
{}

/// A window is a table with a word for its kind and one for its function.
#[tactic(auto, unfolding(crate::proofs::Opened::definitions_opened))]
pub fn words_of_a_window()
    ensures no_table { reading_of (codes "window = [1]\n") ≡ Err (Shape (Some 0)) }
    ensures empty { reading_of (in_one_window (codes "")) ≡ Err (Shape (Some 0)) }
    ensures no_kind { reading_of (in_one_window (codes "func = 'sum'")) ≡ Err (Shape (Some 0)) }
    ensures no_func { reading_of (in_one_window (codes "kind = 'marks'")) ≡ Err (Shape (Some 0)) }
    ensures kind { reading_of (in_one_window (codes "kind = 'hopping', func = 'sum'"))
        ≡ Err (Shape (Some 0)) }
    ensures capital { reading_of (in_one_window (codes "kind = 'Marks', func = 'sum'"))
        ≡ Err (Shape (Some 0)) }
    ensures func { reading_of (in_one_window (codes "kind = 'marks', func = 'median'"))
        ≡ Err (Shape (Some 0)) }
    ensures no_text { reading_of
        (in_one_window (codes "kind = 1, func = 'sum'")) ≡ Err (Shape (Some 0)) }
{}

/// A window has the integers of its kind, and no other key.
#[tactic(auto, unfolding(crate::proofs::Opened::definitions_opened))]
pub fn integers_of_a_window()
    ensures tumbling { reading_of (in_one_window (codes "kind = 'tumbling', func = 'sum'"))
        ≡ Err (Shape (Some 0)) }
    ensures sliding { reading_of
        (in_one_window (codes "kind = 'sliding', length = 4, func = 'sum'"))
        ≡ Err (Shape (Some 0)) }
    ensures session { reading_of
        (in_one_window (codes "kind = 'session', length = 4, func = 'sum'"))
        ≡ Err (Shape (Some 0)) }
    ensures events { reading_of (in_one_window (codes "kind = 'events', count = 2.0, func = 'sum'"))
        ≡ Err (Shape (Some 0)) }
    ensures one_more { reading_of
        (in_one_window (codes "kind = 'tumbling', length = 4, slide = 2, func = 'sum'"))
        ≡ Err (Shape (Some 0)) }
    ensures marks { reading_of (in_one_window (codes "kind = 'marks', length = 4, func = 'sum'"))
        ≡ Err (Shape (Some 0)) }
    ensures unknown { reading_of
        (in_one_window (codes "kind = 'session', gap = 4, name = 'x', func = 'sum'"))
        ≡ Err (Shape (Some 0)) }
{}

/// The integers of a window are within their limits.
#[tactic(auto, unfolding(crate::proofs::Opened::definitions_opened))]
pub fn limits_of_a_window()
    ensures no_length { reading_of
        (in_one_window (codes "kind = 'tumbling', length = 0, func = 'sum'"))
        ≡ Err (Limit (Some 0)) }
    ensures negative { reading_of
        (in_one_window (codes "kind = 'tumbling', length = -1, func = 'sum'"))
        ≡ Err (Limit (Some 0)) }
    ensures too_long { reading_of
        (in_one_window (codes "kind = 'tumbling', length = 1000000000000001, func = 'sum'"))
        ≡ Err (Limit (Some 0)) }
    ensures slide_above_the_length { reading_of
        (in_one_window (codes "kind = 'sliding', length = 5, slide = 6, func = 'sum'"))
        ≡ Err (Limit (Some 0)) }
    ensures too_many_slides { reading_of
        (in_one_window (codes "kind = 'sliding', length = 1001, slide = 1, func = 'sum'"))
        ≡ Err (Limit (Some 0)) }
    ensures no_gap { reading_of (in_one_window (codes "kind = 'session', gap = 0, func = 'sum'"))
        ≡ Err (Limit (Some 0)) }
    ensures too_great { reading_of
        (in_one_window (codes "kind = 'events', count = 4194305, func = 'sum'"))
        ≡ Err (Limit (Some 0)) }
{}

/// Of several windows in trouble the first is told, whether by its shape or by a limit; of one
/// window its shape.
#[tactic(auto, unfolding(crate::proofs::Opened::definitions_opened))]
pub fn first_window_in_trouble()
    ensures limit_first { reading_of
        (codes "window = [{kind = 'session', gap = 0, func = 'sum'}, 1]\n")
        ≡ Err (Limit (Some 0)) }
    ensures second { reading_of
        (codes "window = [{kind = 'session', gap = 1, func = 'sum'}, 1,\n"
        ++ codes "{kind = 'session', gap = 0, func = 'sum'}]\n")
        ≡ Err (Shape (Some 1)) }
    ensures shape_of_the_same { reading_of
        (in_one_window (codes "kind = 'sliding', length = 0, slide = 'x', func = 'sum'"))
        ≡ Err (Shape (Some 0)) }
    ensures key_behind_the_windows { reading_of (one_window ++ codes "every = 1\n")
        ≡ Err (Shape (Some 0)) }
{}
