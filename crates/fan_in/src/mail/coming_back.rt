ghost use Rattle.std.specs.Prelude.{◌≡◌, ◌<◌, ℕ, length, slice_index_or};
ghost use Rattle.fan_in.specs.Posts.{AreBoxesOf};
ghost use Rattle.fan_in.specs.Settling.{AreUnsettled, HasBack, MayTakeBack, TookBack};

use crate::mail::message::Message;
use crate::mail::outbox::Outbox;
use crate::mail::owner_job::OwnerJob;
use mail_lane::Mail;

// All senders come back, source by source, each to the receiver of its lane.
pub(crate) fn bring_back(lanes: &[Mail<Message>], owners: &mut [OwnerJob], rows: Vec<Vec<Outbox>>)
    requires unsettled { AreUnsettled lanes.now owners.old }
    requires boxes { (i : ℕ) (row : _) → i < length rows.items
        → AreBoxesOf i lanes.now (slice_index_or rows.items i row).items }
    ensures many { length owners.new ≡ length owners.old }
    ensures back { (k : ℕ) (o : _) → k < length owners.old → HasBack (length rows.items) k
        rows.items (slice_index_or owners.old k o) (slice_index_or owners.new k o) }
{
    let many = rows.len();
    let mut rows = rows.into_iter();
    for _i in 0..many {
        let row = rows.next().unwrap();
        take_row(lanes, owners, row);
    }
}

// Each receiver takes back the sender of one source on its lane.
fn take_row(lanes: &[Mail<Message>], owners: &mut [OwnerJob], row: Vec<Outbox>)
    requires one_each { length owners.old ≡ length lanes.now }
    requires all { length row.items ≡ length lanes.now }
    requires may { (k : ℕ) (l : _) (o : _) (s : _) → k < length lanes.now
        → MayTakeBack (slice_index_or lanes.now k l) (slice_index_or owners.old k o)
        (slice_index_or row.items k s) }
    ensures many { length owners.new ≡ length owners.old }
    ensures back { (k : ℕ) (o : _) (s : _) → k < length owners.old
        → TookBack (slice_index_or row.items k s).sent (slice_index_or owners.old k o)
        (slice_index_or owners.new k o) }
{
    let mut row = row.into_iter();
    for k in 0..lanes.len() {
        let outbox = row.next().unwrap();
        lanes[k].take_back(&mut owners[k].receiver, outbox.into_sender());
    }
}
