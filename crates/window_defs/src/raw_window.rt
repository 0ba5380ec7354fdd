use crate::window::RawKind;
use stream_base::Func;

/// A window whose shape is right. Its numbers may be beyond their limits.
#[derive(Clone, Copy, Debug, PartialEq, Eq)]
pub struct RawWindow {
    pub kind: RawKind,
    pub func: Func,
}
