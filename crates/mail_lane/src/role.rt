use crate::letter::Letter;
use std::collections::LinkedList;

// What a pass of the queue knows. No value of it is made.
pub enum Role<M> {
    // A sender: its number, and what it sent.
    Sending(u64, LinkedList<M>),
    // The receiver: how many senders were made, what it took, and what the senders have sent in all
    // whose passes are back, the first of them first.
    Receiving(u64, LinkedList<Letter<M>>, LinkedList<LinkedList<M>>),
    // A pass that was given back.
    Spent,
}
