//! The windows of one key, by its plain lists.
//!
//! *From* accepted tuples and marks of a key and moves of the watermark, *to* its changes, and to the
//! rows that stand. *Stands on* `key_windows`, whose trait it implements, and on `plain_windows`.
//! *Promise*: each call appends exactly the changes of the definitions, in their order, and takes
//! memory only in the call that makes room. It keeps all tuples, so that it tells old rows too.
#![tactic(auto)]

mod drafts;
mod plain_key;

pub use plain_key::PlainKey;
