ghost use Rattle.std.specs.Prelude.{◌≡◌, fold};
ghost use Rattle.watermark_table.specs.Tallies.{lesser, no_source, with_standing, tallied, least_of};

use crate::standing::Standing;
use stream_base::FINAL;

// Of some sources: the least watermark of those that are awake, where one is, and whether all have
// ended.
#[derive(Clone, Copy)]
pub struct Tally {
    pub least: Option<u64>,
    pub all_ended: bool,
}

impl Tally {
    // Of no source.
    pub fn new() -> Tally
        ensures { result ≡ no_source }
    {
        Tally {
            least: None,
            all_ended: true,
        }
    }

    // With one source more.
    pub fn with(self, standing: Standing) -> Tally
        ensures { result ≡ with_standing self standing }
    {
        match standing {
            Standing::Awake { water } => Tally {
                least: Some(lesser(self.least, water)),
                all_ended: false,
            },
            Standing::Idle { .. } => Tally {
                least: self.least,
                all_ended: false,
            },
            Standing::Ended => self,
        }
    }

    // With more of them.
    pub fn with_all(self, standings: &[Standing]) -> Tally
        ensures { result ≡ tallied self standings.now }
    {
        let mut tally = self;
        for standing in standings {
            tally = tally.with(*standing);
        }
        tally
    }

    // Their watermark: final where all have ended, else the least, and 0 where nobody is awake.
    pub fn water(self) -> u64
        ensures { result ≡ least_of self }
    {
        if self.all_ended {
            FINAL
        } else {
            self.least.unwrap_or(0)
        }
    }
}

fn lesser(least: Option<u64>, water: u64) -> u64
    ensures { result ≡ lesser least water }
{
    match least {
        Some(other) => other.min(water),
        None => water,
    }
}
