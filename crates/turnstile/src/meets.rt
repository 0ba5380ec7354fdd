ghost use Rattle.std.specs.Prelude.{◌≡◌, ◌⊎◌, OnOk, OnErr};
ghost use Rattle.turnstile.specs.History.{BeginsWith, longer};
ghost use Rattle.turnstile.specs.Passes.{seen, made, IsPassOf, IsSamePass};

use crate::keeps::Keeps;
use crate::pass::Pass;
use crate::plays::{Compare, Copied, Joined};
use crate::turnstile::{TICKET, Turnstile};
use stream_base::NoMemory;

impl<T: Keeps> Turnstile<T> {
    /// Two passes tell each other what they have seen. Both then have seen the longer of the two
    /// lists, which begins with the shorter: the turns of callers that meet stand in one history. A
    /// pass takes no memory today, so this is never refused.
    pub fn meet(&self, one: &mut Pass<T>, other: &mut Pass<T>) -> Result<(), NoMemory>
        requires own { IsPassOf self.now one.old × IsPassOf self.now other.old }
        ensures same { IsSamePass one.old one.new × IsSamePass other.old other.new }
        ensures made { (made one.new ≡ made one.old) × (made other.new ≡ made other.old) }
        ensures one_list { OnOk result (seen one.new ≡ seen other.new) }
        ensures one_of_two { OnOk result ((seen one.new ≡ seen one.old)
            ⊎ (seen one.new ≡ seen other.old)) }
        ensures begins { OnOk result (BeginsWith (seen one.new) (seen one.old)
            × BeginsWith (seen one.new) (seen other.old)) }
        ensures refused { OnErr result ((seen one.new ≡ seen one.old)
            × (seen other.new ≡ seen other.old)) }
    {
        self.tell(one, other);
        self.tell(other, one);
        Ok(())
    }

    // What `from` has seen is told to `to`.
    fn tell(&self, from: &mut Pass<T>, to: &mut Pass<T>)
        requires own { IsPassOf self.now from.old × IsPassOf self.now to.old }
        ensures same { IsSamePass from.old from.new × IsSamePass to.old to.new }
        ensures made { (made from.new ≡ made from.old) × (made to.new ≡ made to.old) }
        ensures kept { seen from.new ≡ seen from.old }
        ensures longer { seen to.new ≡ longer (seen to.old) (seen from.old) }
        ensures begins { BeginsWith (seen to.new) (seen to.old)
            × BeginsWith (seen to.new) (seen from.old) }
    {
        let copy = self.table.shared.split_seat::<Copied>(&mut from.seat);
        self.table.shared.join_seat::<Joined>(&mut to.seat, copy);
        self.table.shared.load::<Compare>(&mut to.seat, TICKET);
    }
}
