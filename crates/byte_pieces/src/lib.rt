//! Bytes that are kept in pieces of bounded size, and a reader of them.
//!
//! *From* bytes that come bit by bit *to* the same bytes in their order. *Stands on* the standard library
//! alone. *Promise*: the bytes that come out are those that went in. A piece is freed as soon as it was
//! taken or read, so bytes that were read are no longer held.
#![tactic(auto)]

mod piece_reader;
mod pieces;

pub use piece_reader::PieceReader;
pub use pieces::Pieces;
