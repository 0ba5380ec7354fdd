//! Refused records: their kinds and fields, and which fault is the first.
ghost use Rattle.std.specs.Prelude.{◌≡◌, [], ◌∷◌, codes};
ghost use Rattle.stream_base.specs.Examples.{water};
ghost use Rattle.source_feed.specs.declared.row_why.RowWhy.TheVariants.{Kind, Fields, Time, Value, Key};
ghost use Rattle.source_examples.specs.Spelled.{refused, stream};

/// A kind is one small letter. An end is no record.
#[tactic(auto, unfolding(crate::proofs::Opened::sources_opened))]
pub fn records_of_no_kind()
    ensures letter { stream (codes "q,1\n") ≡ refused [] 1 Kind }
    ensures end { stream (codes "e\n") ≡ refused [] 1 Kind }
    ensures capital { stream (codes "T,1,5,a\n") ≡ refused [] 1 Kind }
    ensures capital_idle { stream (codes "I\n") ≡ refused [] 1 Kind }
    ensures longer { stream (codes "tt,1,5,a\n") ≡ refused [] 1 Kind }
    ensures empty { stream (codes ",1,5,a\n") ≡ refused [] 1 Kind }
{}

/// A tuple has four fields, and a mark too, of which the third is empty.
#[tactic(auto, unfolding(crate::proofs::Opened::sources_opened))]
pub fn fields_of_tuples_and_marks()
    ensures tuple_fewer { stream (codes "t,1,5\n") ≡ refused [] 1 Fields }
    ensures tuple_more { stream (codes "t,1,5,a,\n") ≡ refused [] 1 Fields }
    ensures tuple_alone { stream (codes "t\n") ≡ refused [] 1 Fields }
    ensures mark_fewer { stream (codes "m,1,a\n") ≡ refused [] 1 Fields }
    ensures mark_fewer_still { stream (codes "m,x\n") ≡ refused [] 1 Fields }
    ensures mark_more { stream (codes "m,1,,a,\n") ≡ refused [] 1 Fields }
    ensures mark_with_a_value { stream (codes "m,1,0,a\n") ≡ refused [] 1 Fields }
{}

/// A water has two fields, or four of which the last two are empty; an idle has one, or four of
/// which the last three are empty.
#[tactic(auto, unfolding(crate::proofs::Opened::sources_opened))]
pub fn fields_of_waters_and_idles()
    ensures water_alone { stream (codes "w\n") ≡ refused [] 1 Fields }
    ensures water_three { stream (codes "w,5,\n") ≡ refused [] 1 Fields }
    ensures water_three_filled { stream (codes "w,x,1\n") ≡ refused [] 1 Fields }
    ensures water_value { stream (codes "w,5,1,\n") ≡ refused [] 1 Fields }
    ensures water_key { stream (codes "w,5,,a\n") ≡ refused [] 1 Fields }
    ensures water_five { stream (codes "w,5,,,\n") ≡ refused [] 1 Fields }
    ensures idle_two { stream (codes "i,\n") ≡ refused [] 1 Fields }
    ensures idle_three { stream (codes "i,,\n") ≡ refused [] 1 Fields }
    ensures idle_time { stream (codes "i,x,,\n") ≡ refused [] 1 Fields }
    ensures idle_value { stream (codes "i,,x,\n") ≡ refused [] 1 Fields }
    ensures idle_key { stream (codes "i,,,x\n") ≡ refused [] 1 Fields }
    ensures idle_five { stream (codes "i,,,,\n") ≡ refused [] 1 Fields }
{}

/// Of several faults of a record the first is answered: its kind, its fields, its time, its value,
/// its key.
#[tactic(auto, unfolding(crate::proofs::Opened::sources_opened))]
pub fn first_fault_of_a_record()
    ensures kind { stream (codes "q,x,x\n") ≡ refused [] 1 Kind }
    ensures fields { stream (codes "t,x,x\n") ≡ refused [] 1 Fields }
    ensures fields_of_a_mark { stream (codes "m,x,x,\n") ≡ refused [] 1 Fields }
    ensures fields_of_a_water { stream (codes "w,x,,x\n") ≡ refused [] 1 Fields }
    ensures time { stream (codes "t,x,x,\n") ≡ refused [] 1 Time }
    ensures time_of_a_mark { stream (codes "m,x,,\n") ≡ refused [] 1 Time }
    ensures value { stream (codes "t,1,x,\n") ≡ refused [] 1 Value }
    ensures key { stream (codes "t,1,5,\n") ≡ refused [] 1 Key }
    ensures key_of_a_mark { stream (codes "m,1,,\n") ≡ refused [] 1 Key }
{}

/// The first refused record ends the source, and no end stands behind it.
#[tactic(auto, unfolding(crate::proofs::Opened::sources_opened))]
pub fn first_refused_record_ends_a_source()
    ensures first { stream (codes "w,1\nw,x\nq\nw,2\n") ≡ refused (water 1 ∷ []) 2 Time }
    ensures last { stream (codes "w,1\nw,2\nw") ≡ refused (water 1 ∷ water 2 ∷ []) 3 Fields }
{}
