/// A message with the number of its sender, as it lies in a lane and in the receiver's list.
#[derive(Drop)]
pub struct Letter<M> {
    /// The sender's number.
    pub from: u16,
    /// The message.
    pub message: M,
}
