//! Window definitions, read from TOML.
//!
//! *From* the bytes of a definitions file, *to* a `Defs`. *Stands on* stream_base and toml. *Promise*:
//! bytes are read as definitions, or refused with the first fault, exactly as the definition of a
//! definitions file says. The words of kinds and functions, and the numbers of a kind with their keys,
//! are given to those who write definitions.
#![tactic(auto)]

mod defs_fault;
mod keyed_number;
mod limits;
mod raw_window;
mod read;
mod table;
mod top;
mod window;

pub use defs_fault::DefsFault;
pub use keyed_number::KeyedNumber;
pub use limits::bytes_max_is_this_number;
pub use read::{BYTES_MAX, read_defs};
pub use window::{
    FUNCS, KINDS, first_in_trouble_is_named, func_named, func_word, is_kind, kind_word,
    number_keys, numbers_of,
};
