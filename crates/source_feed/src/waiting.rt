ghost use Rattle.std.specs.Prelude.{◌≡◌, ◌∷◌, [], None, IfSome, IfNone};
ghost use Rattle.source_feed.specs.Pace.{waiting_of};

use stream_base::What;

// What a source has read and not told yet: an event, and the watermark that is made after it.
#[derive(Clone, Copy)]
pub struct Waiting {
    pub event: Option<What>,
    pub made: Option<u64>,
}

impl Waiting {
    // Nothing waits.
    pub fn nothing() -> Waiting
        ensures { waiting_of result ≡ [] }
    {
        Waiting {
            event: None,
            made: None,
        }
    }

    // The next of what waits.
    pub fn next(&mut self) -> Option<What>
        ensures some { IfSome result (λ what. waiting_of self.old ≡ what ∷ waiting_of self.new) }
        ensures none { IfNone result (waiting_of self.old ≡ []) }
        ensures event { IfNone result (self.new.event ≡ None) }
        ensures same { IfNone result (self.new ≡ self.old) }
    {
        if let Some(what) = self.event {
            self.event = None;
            return Some(what);
        }
        if let Some(time) = self.made {
            self.made = None;
            return Some(What::Water { time });
        }
        None
    }
}
