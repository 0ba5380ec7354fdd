// A tuple that wasn't late: the place of its key, its time, which entry it was, and its value.
#[derive(Clone, Copy, Debug, PartialEq, Eq)]
pub struct Kept {
    pub key: usize,
    pub time: u64,
    pub arrival: u64,
    pub value: i64,
}

impl Kept {
    // Whether it is before a time and an arrival in event order.
    pub fn is_before(&self, time: u64, arrival: u64) -> bool {
        self.time < time || self.time == time && self.arrival < arrival
    }
}
