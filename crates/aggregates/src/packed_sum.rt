ghost use Rattle.std.specs.Prelude.{◌≡◌, ℤ};
ghost use Rattle.aggregates.specs.Values.{IsSum};

use std::marker::Model;

// A sum, modulo 2^128, as two words: a number of 128 bits would be aligned to 16 bytes.
#[derive(Clone, Copy, Debug)]
pub struct PackedSum {
    low: u64,
    high: u64,
}

impl Model for PackedSum {
    ghost use Rattle.std.specs.Prelude.{ℤ};

    ghost Value = { ℤ };

    ghost use Rattle.aggregates.specs.Words.{AreWords, number_of, words_of, words_of-number};

    ghost view = { number_of };

    ghost invariant = { AreWords };

    ghost inverse = { words_of };

    ghost inverse_ok = { words_of-number };
}

// How far the high word lies above the low one.
const HIGH: u128 = 1 << 64;

impl PackedSum {
    pub fn new(sum: i128) -> PackedSum
        ensures { result ≡ sum }
    {
        let bits = sum.cast_unsigned();
        PackedSum {
            low: (bits % HIGH) as u64,
            high: (bits / HIGH) as u64,
        }
    }

    pub fn get(self) -> i128
        ensures value { result ≡ self }
        ensures fits { IsSum self }
    {
        (u128::from(self.high) * HIGH + u128::from(self.low)).cast_signed()
    }
}
