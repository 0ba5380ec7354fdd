//! The part of a source for one shard.
ghost use Rattle.std.specs.Prelude.{◌≡◌, ◌++◌, ℕ, false, true, List, [], ◌∷◌, map, None};
ghost use Rattle.source_feed.specs.Events.{stream_of};
ghost use Rattle.source_feed.specs.RowsView.{AreInner};
ghost use Rattle.source_feed.specs.Stream.{entry_of};
ghost use Rattle.stream_base.specs.Model.Routes.{routed};
ghost use Rattle.stream_base.specs.declared.what.What.{What};
ghost use Rattle.stream_base.specs.declared.what.What.TheVariants.{End};
ghost use Rattle.part_laws.specs.Parts.{is_woken, part_text, source_text};

/// Events that are written out as records are read back, with the end behind them and no watermark
/// more, whatever the disorder, where none is to be made and an idle source is woken by a word of
/// its own.
pub fn events_written_out_are_read_back()
    ensures { (source disorder : ℕ) (events : List What) → AreInner events
        → is_woken false events ≡ true
        → stream_of source 0 disorder (source_text (map (entry_of source) (events ++ End ∷ [])))
        ≡ record { entries = map (entry_of source) (events ++ End ∷ []); refusal = None } }
{}

/// The part of a source for a shard is a source whose stream is the entries that go there: the
/// tuples and marks of its keys and all words on progress, those that were made and those that woke
/// the source among them, and the end.
pub fn part_is_a_source_of_the_routed_entries()
    ensures { (shards k source every disorder other : ℕ) (bytes : List ℕ)
        → (stream_of source every disorder bytes).refusal ≡ None
        → stream_of source 0 other
        (part_text shards k (stream_of source every disorder bytes).entries)
        ≡ record {
          entries = routed shards k (stream_of source every disorder bytes).entries;
          refusal = None;
        } }
{}

/// Under whatever number a source is read, its parts are the same, and it is refused or isn't. So a
/// part may be written of the source alone, and read as the source of its number among several.
pub fn part_is_the_same_under_any_number()
    ensures refused { (one other every disorder : ℕ) (bytes : List ℕ)
        → (stream_of one every disorder bytes).refusal
        ≡ (stream_of other every disorder bytes).refusal }
    ensures part { (shards k one other every disorder : ℕ) (bytes : List ℕ)
        → part_text shards k (stream_of one every disorder bytes).entries
        ≡ part_text shards k (stream_of other every disorder bytes).entries }
{}
