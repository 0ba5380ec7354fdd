use crate::span::Span;
use stream_base::Former;

/// A standing instance: its span, and what it shows.
#[derive(Clone, Copy, Debug, PartialEq, Eq)]
pub struct Standing {
    pub span: Span,
    pub former: Former,
}
