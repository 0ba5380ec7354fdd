//! Sources that were idle, and wake.
ghost use Rattle.std.specs.Prelude.{◌≡◌, [], ◌∷◌, codes, pos};
ghost use Rattle.stream_base.specs.Examples.{tuple, mark, water, idle, a};
ghost use Rattle.source_feed.specs.Events.{stream_of};
ghost use Rattle.source_feed.specs.declared.row_why.RowWhy.TheVariants.{Time};
ghost use Rattle.source_examples.specs.Spelled.{refused, stream, whole};

/// Where a tuple or mark comes behind the word that its source is idle, a water is put in before
/// it, of the greatest time of the source's waters so far, or 0. From several such words it wakes
/// once.
#[tactic(auto, unfolding(crate::proofs::Opened::sources_opened))]
pub fn tuple_or_mark_wakes_its_source()
    ensures no_water { stream (codes "t,1,5,a\ni\nt,4,7,a\n")
        ≡ whole (tuple 1 (pos 5) a ∷ idle ∷ water 0 ∷ tuple 4 (pos 7) a ∷ []) }
    ensures greatest_water { stream (codes "w,7\nw,3\ni\nm,9,,a\nm,9,,a\n")
        ≡ whole (water 7 ∷ water 3 ∷ idle ∷ water 7 ∷ mark 9 a ∷ mark 9 a ∷ []) }
    ensures twice { stream (codes "w,7\ni\ni,,,\nt,1,5,a\ni\nt,2,5,a\n")
        ≡ whole (water 7 ∷ idle ∷ idle ∷ water 7 ∷ tuple 1 (pos 5) a ∷ idle ∷ water 7
        ∷ tuple 2 (pos 5) a ∷ []) }
{}

/// A water wakes its source itself, whatever its time, and an end wakes nothing.
#[tactic(auto, unfolding(crate::proofs::Opened::sources_opened))]
pub fn water_wakes_its_source()
    ensures lower { stream (codes "w,7\ni\nw,1\nt,8,5,a\n")
        ≡ whole (water 7 ∷ idle ∷ water 1 ∷ tuple 8 (pos 5) a ∷ []) }
    ensures at_the_end { stream (codes "w,7\ni\n") ≡ whole (water 7 ∷ idle ∷ []) }
{}

/// Waters that were made count among the source's waters, and the one that wakes stands before the
/// tuple, with what is made behind it.
#[tactic(auto, unfolding(crate::proofs::Opened::sources_opened))]
pub fn made_waters_count_where_a_source_wakes()
    ensures { stream_of 0 1 2 (codes "t,9,5,a\nw,3\ni\nt,5,5,a\n")
        ≡ whole (tuple 9 (pos 5) a ∷ water 7 ∷ water 3 ∷ idle ∷ water 7 ∷ tuple 5 (pos 5) a
        ∷ water 7 ∷ []) }
{}

/// A refused record wakes nothing.
#[tactic(auto, unfolding(crate::proofs::Opened::sources_opened))]
pub fn refused_record_wakes_nothing()
    ensures { stream (codes "w,7\ni\nt,x,5,a\n") ≡ refused (water 7 ∷ idle ∷ []) 3 Time }
{}
