//! Watermarks that are made after tuples.
ghost use Rattle.std.specs.Prelude.{◌≡◌, [], ◌∷◌, codes, pos};
ghost use Rattle.stream_base.specs.Examples.{tuple, mark, water, a};
ghost use Rattle.source_feed.specs.Events.{stream_of};
ghost use Rattle.source_feed.specs.declared.row_why.RowWhy.TheVariants.{Time};
ghost use Rattle.source_examples.specs.Spelled.{refused, whole};

/// After each tuple whose number is a multiple of `every` a water is made, `disorder` below the
/// greatest time of the tuples so far, or at 0 where that is less. With 0 as `every` none is made.
#[tactic(auto, unfolding(crate::proofs::Opened::sources_opened))]
pub fn waters_are_made()
    ensures none { stream_of 0 0 3 (codes "t,5,1,a\nt,4,2,a\n")
        ≡ whole (tuple 5 (pos 1) a ∷ tuple 4 (pos 2) a ∷ []) }
    ensures each { stream_of 0 1 0 (codes "t,5,1,a\nt,4,2,a\n")
        ≡ whole (tuple 5 (pos 1) a ∷ water 5 ∷ tuple 4 (pos 2) a ∷ water 5 ∷ []) }
    ensures each_second { stream_of 0 2 3 (codes "t,12,1,a\nt,4,2,a\nt,20,4,a\nt,9,8,a\nt,8,1,a\n")
        ≡ whole (tuple 12 (pos 1) a ∷ tuple 4 (pos 2) a ∷ water 9 ∷ tuple 20 (pos 4) a
        ∷ tuple 9 (pos 8) a ∷ water 17 ∷ tuple 8 (pos 1) a ∷ []) }
    ensures not_below_zero { stream_of 0 1 5 (codes "t,3,1,a\nt,7,2,a\n")
        ≡ whole (tuple 3 (pos 1) a ∷ water 0 ∷ tuple 7 (pos 2) a ∷ water 2 ∷ []) }
{}

/// Tuples alone are counted, and their times alone are looked at. Waters in the records stay where
/// they are.
#[tactic(auto, unfolding(crate::proofs::Opened::sources_opened))]
pub fn tuples_alone_make_waters()
    ensures marks { stream_of 0 2 0 (codes "m,30,,a\nt,5,1,a\nm,40,,a\nt,6,2,a\n")
        ≡ whole (mark 30 a ∷ tuple 5 (pos 1) a ∷ mark 40 a ∷ tuple 6 (pos 2) a ∷ water 6 ∷ []) }
    ensures waters { stream_of 0 1 0 (codes "w,9\nt,5,1,a\nw,20\nt,6,2,a\n")
        ≡ whole (water 9 ∷ tuple 5 (pos 1) a ∷ water 5 ∷ water 20 ∷ tuple 6 (pos 2) a ∷ water 6
        ∷ []) }
{}

/// A tuple behind a header is the first, whatever its record's number; and what was made before a
/// refused record stays.
#[tactic(auto, unfolding(crate::proofs::Opened::sources_opened))]
pub fn waters_behind_a_header_and_before_a_refusal()
    ensures { stream_of 0 2 0 (codes "kind,time,value,key\nt,5,1,a\nt,6,2,a\nt,x,4,a\n")
        ≡ refused (tuple 5 (pos 1) a ∷ tuple 6 (pos 2) a ∷ water 6 ∷ []) 4 Time }
{}
