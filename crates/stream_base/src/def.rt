use crate::func::Func;
use crate::kind::Kind;

/// One window definition: its kind, and the function over each of its instances.
#[derive(Clone, Copy, Debug, PartialEq, Eq)]
pub struct Def {
    pub kind: Kind,
    pub func: Func,
}
