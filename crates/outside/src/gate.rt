/// What a run passes before each step: a place where a caller may watch it or hold it. It changes
/// nothing that a contract knows.
pub trait Gate: Sync {
    /// Called with a source's number before each of its entries is handed on.
    fn pass(&self, source: u16);
}

/// The gate that is always open.
#[derive(Clone, Copy, Debug)]
pub struct OpenGate;

impl Gate for OpenGate {
    fn pass(&self, _source: u16) {}
}
