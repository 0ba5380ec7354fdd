//! Which shard an entry goes to.
ghost use Rattle.std.specs.Prelude.{◌≡◌, [], ◌∷◌, codes, pos};
ghost use Rattle.stream_base.specs.Examples.{tuple, mark, water, idle, end, from, a, b, one_source, one_source_by_shard};
ghost use Rattle.stream_base.specs.Model.Routes.{number_of, shard_of, routed, IsLawful};
ghost use Rattle.stream_base.specs.declared.what.What.TheVariants.{Water, End};

/// Which shard a key belongs to. The number of a long key is taken modulo 2^32.
pub fn shards_of_keys()
    ensures one { shard_of a 2 ≡ 1 }
    ensures other { shard_of b 2 ≡ 0 }
    ensures two_letters { shard_of (codes "ab") 7 ≡ 4 }
    ensures digits { shard_of (codes "k25") 8 ≡ 6 }
    ensures long { number_of (codes "zzzzzzzz") ≡ 2384944384 }
    ensures alone { shard_of (codes "k25") 1 ≡ 0 }
{}

/// A tuple or mark goes to the shard of its key alone, and any other entry to every shard.
pub fn entries_of_a_source_by_shard()
    ensures first { routed 2 0 one_source ≡ mark 3 b ∷ water 5 ∷ idle ∷ end ∷ [] }
    ensures second { routed 2 1 one_source ≡ tuple 1 (pos 1) a ∷ water 5 ∷ idle ∷ end ∷ [] }
{}

/// The journals of two shards with each entry where it belongs, and one journal of two sources
/// whose entries stand between one another.
pub fn lawful_journals()
    ensures two_shards { IsLawful 2 (one_source ∷ []) one_source_by_shard }
    ensures two_sources { IsLawful 1
        ((water 5 ∷ end ∷ []) ∷ (from 1 (Water 7) ∷ from 1 End ∷ []) ∷ [])
        ((from 1 (Water 7) ∷ water 5 ∷ end ∷ from 1 End ∷ []) ∷ []) }
{}

/// Journals aren't lawful where one entry stands for two that are alike, where an entry is of no
/// source or was never told, where a watermark is missing in the second shard, where two entries of
/// a source have changed places, where the last of two sources is left out, or where there are too
/// few journals or too many.
pub fn unlawful_journals()
    ensures repeated { ¬ IsLawful 1 ((water 5 ∷ water 5 ∷ []) ∷ []) ((water 5 ∷ []) ∷ []) }
    ensures of_no_source { ¬ IsLawful 1 ((water 5 ∷ []) ∷ [])
        ((water 5 ∷ from 1 (Water 5) ∷ []) ∷ []) }
    ensures never_told { ¬ IsLawful 1 ([] ∷ []) ((water 5 ∷ []) ∷ []) }
    ensures missing { ¬ IsLawful 2 ((water 5 ∷ []) ∷ []) ((water 5 ∷ []) ∷ [] ∷ []) }
    ensures swapped { ¬ IsLawful 1 ((water 5 ∷ water 7 ∷ []) ∷ []) ((water 7 ∷ water 5 ∷ []) ∷ []) }
    ensures last_source { ¬ IsLawful 1 ((water 5 ∷ []) ∷ (from 1 (Water 7) ∷ []) ∷ [])
        ((water 5 ∷ []) ∷ []) }
    ensures too_few { ¬ IsLawful 2 ([] ∷ []) ([] ∷ []) }
    ensures too_many { ¬ IsLawful 1 ([] ∷ []) ([] ∷ [] ∷ []) }
{}
