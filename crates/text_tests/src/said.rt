//! What sources say, with keys named by their texts, so that tables of it are constants.
use std::process::Abort;
use stream_base::{KeyText, What};

/// A tuple by its key, time and value, a mark by its key and time, a watermark by its time.
#[derive(Drop)]
pub enum Said {
    Tuple(&'static str, u64, i64),
    Mark(&'static str, u64),
    Water(u64),
    Idle,
    End,
}

pub fn key_of(rt: &impl Abort, text: &str) -> KeyText {
    let Ok(key) = KeyText::from_bytes(text.as_bytes()) else {
        panic!(rt; "no key");
    };
    key
}

pub fn what_of(rt: &impl Abort, said: &Said) -> What {
    match said {
        Said::Tuple(key, time, value) => What::Tuple {
            key: key_of(rt, key),
            time: *time,
            value: *value,
        },
        Said::Mark(key, time) => What::Mark {
            key: key_of(rt, key),
            time: *time,
        },
        Said::Water(time) => What::Water { time: *time },
        Said::Idle => What::Idle,
        Said::End => What::End,
    }
}
