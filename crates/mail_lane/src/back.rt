/// A message that was not sent for want of memory, and was added nowhere.
#[derive(Debug, PartialEq, Eq, Drop)]
pub struct Back<M> {
    /// The message itself.
    pub message: M,
}
