use crate::keeps::Keeps;
use crate::pass::Pass;
use crate::turnstile::Turnstile;

/// What is left of a pass once its turnstile is closed.
#[derive(Clone, Copy, Debug, PartialEq, Eq)]
pub struct PassEnd {
    /// The pass's number.
    pub number: u64,
}

/// There was no memory to close with. The turnstile and its passes come back untouched.
#[derive(Drop)]
pub struct Unclosed<T: Keeps> {
    pub turnstile: Turnstile<T>,
    pub passes: Vec<Pass<T>>,
}
