use outside::Gate;

// What an offer passes inside its turn, before the entry is applied.
pub(crate) trait Door {
    fn pass(&self);
}

// There is nothing to pass.
pub(crate) struct NoDoor;

impl Door for NoDoor {
    fn pass(&self) {}
}

// A gate is passed, with this number.
impl<G: Gate> Door for (&G, u16) {
    fn pass(&self) {
        self.0.pass(self.1);
    }
}
