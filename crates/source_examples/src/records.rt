//! Records: what each kind spells, the header, and how bytes part into records.
ghost use Rattle.std.specs.Prelude.{◌≡◌, ◌++◌, [], ◌∷◌, codes, pos, negsuc, None};
ghost use Rattle.stream_base.specs.Examples.{tuple, mark, water, idle, from, a};
ghost use Rattle.stream_base.specs.declared.what.What.TheVariants.{Tuple, End};
ghost use Rattle.source_feed.specs.Events.{stream_of};
ghost use Rattle.source_feed.specs.declared.row_why.RowWhy.TheVariants.{Kind, Time, Key};
ghost use Rattle.source_examples.specs.Spelled.{byte_order_mark, refused, stream, whole};

/// Each kind of record in each of its forms. Behind the last record stands an end, and each entry
/// has the number of the source.
#[tactic(auto, unfolding(crate::proofs::Opened::sources_opened))]
pub fn record_of_each_kind()
    ensures tuples { stream (codes "t,1,5,a\n") ≡ whole (tuple 1 (pos 5) a ∷ []) }
    ensures marks { stream (codes "m,10,,a\n") ≡ whole (mark 10 a ∷ []) }
    ensures waters { stream (codes "w,10\nw,11,,\n") ≡ whole (water 10 ∷ water 11 ∷ []) }
    ensures idles { stream (codes "i\ni,,,\n") ≡ whole (idle ∷ idle ∷ []) }
    ensures nothing { stream [] ≡ whole [] }
    ensures numbered { stream_of 7 0 0 (codes "t,1,5,a\n")
        ≡ record { entries = from 7 (Tuple a 1 (pos 5)) ∷ from 7 End ∷ []; refusal = None } }
{}

/// A first record with exactly the four names is a header, and counts. In another place it is a
/// record of no kind.
#[tactic(auto, unfolding(crate::proofs::Opened::sources_opened))]
pub fn header_is_the_first_record()
    ensures first { stream (codes "kind,time,value,key\nw,1\nq\n")
        ≡ refused (water 1 ∷ []) 3 Kind }
    ensures alone { stream (codes "kind,time,value,key") ≡ whole [] }
    ensures behind_empty_lines { stream (codes "\n\nkind,time,value,key\nw,1\n")
        ≡ whole (water 1 ∷ []) }
    ensures quoted { stream (codes "\"kind\",time,\"value\",key\nw,1\n") ≡ whole (water 1 ∷ []) }
    ensures second { stream (codes "w,1\nkind,time,value,key\n") ≡ refused (water 1 ∷ []) 2 Kind }
    ensures twice { stream (codes "kind,time,value,key\nkind,time,value,key\n")
        ≡ refused [] 2 Kind }
{}

/// A record that differs from the header in one name, or has a field less or more, is none.
#[tactic(auto, unfolding(crate::proofs::Opened::sources_opened))]
pub fn header_has_exactly_its_names()
    ensures kind { stream (codes "Kind,time,value,key\n") ≡ refused [] 1 Kind }
    ensures time { stream (codes "kind,t,value,key\n") ≡ refused [] 1 Kind }
    ensures value { stream (codes "kind,time,v,key\n") ≡ refused [] 1 Kind }
    ensures key { stream (codes "kind,time,value,k\n") ≡ refused [] 1 Kind }
    ensures swapped { stream (codes "kind,time,key,value\n") ≡ refused [] 1 Kind }
    ensures fewer { stream (codes "kind,time,value\n") ≡ refused [] 1 Kind }
    ensures more { stream (codes "kind,time,value,key,\n") ≡ refused [] 1 Kind }
{}

/// A record ends with its line, whose end may be left out behind the last. Empty lines are no
/// records, and aren't counted.
#[tactic(auto, unfolding(crate::proofs::Opened::sources_opened))]
pub fn lines_are_records()
    ensures no_line_end { stream (codes "w,1\nw,2") ≡ whole (water 1 ∷ water 2 ∷ []) }
    ensures carriage_return { stream (codes "w,1\r\nt,2,3,a\r\n")
        ≡ whole (water 1 ∷ tuple 2 (pos 3) a ∷ []) }
    ensures empty_lines { stream (codes "\nw,1\n\n\nq\n") ≡ refused (water 1 ∷ []) 2 Kind }
    ensures one_empty_field { stream (codes "\"\"\n") ≡ refused [] 1 Kind }
{}

/// Quotes around a field are no part of it: a key may hold a comma and quotes. A line end inside
/// quotes is part of the field, and ends no record. Nothing is trimmed.
#[tactic(auto, unfolding(crate::proofs::Opened::sources_opened))]
pub fn quotes_and_blanks()
    ensures comma { stream (codes "t,1,5,\"a,b\"\n") ≡ whole (tuple 1 (pos 5) (codes "a,b") ∷ []) }
    ensures doubled { stream (codes "t,1,5,\"a\"\"b\"\n")
        ≡ whole (tuple 1 (pos 5) (codes "a\"b") ∷ []) }
    ensures part_of_a_field { stream (codes "t,\"1\",\"-\"5,a\n")
        ≡ whole (tuple 1 (negsuc 4) a ∷ []) }
    ensures line_end { stream (codes "w,1\nt,1,5,\"a\nw,2\n\"\n") ≡ refused (water 1 ∷ []) 2 Key }
    ensures unclosed { stream (codes "t,1,5,\"a") ≡ whole (tuple 1 (pos 5) a ∷ []) }
    ensures blank_in_a_key { stream (codes "m,1,, a \n") ≡ whole (mark 1 (codes " a ") ∷ []) }
    ensures blank_in_a_time { stream (codes "w, 1\n") ≡ refused [] 1 Time }
    ensures blank_in_a_kind { stream (codes "w ,1\n") ≡ refused [] 1 Kind }
{}

/// A byte order mark at the front is taken off, once. Elsewhere it is part of a field.
#[tactic(auto, unfolding(crate::proofs::Opened::sources_opened))]
pub fn byte_order_mark_is_taken_off()
    ensures front { stream (byte_order_mark ++ codes "w,1\n") ≡ whole (water 1 ∷ []) }
    ensures header { stream (byte_order_mark ++ codes "kind,time,value,key\nw,1\n")
        ≡ whole (water 1 ∷ []) }
    ensures alone { stream byte_order_mark ≡ whole [] }
    ensures twice { stream (byte_order_mark ++ byte_order_mark ++ codes "w,1\n")
        ≡ refused [] 1 Kind }
    ensures behind { stream (codes "w,1\n" ++ byte_order_mark ++ codes "w,2\n")
        ≡ refused (water 1 ∷ []) 2 Kind }
{}
