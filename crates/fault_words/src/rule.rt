use crate::def_words::COUNT_MAX;
use stream_base::TIME_MAX;
use window_defs::func_named;

// What is allowed for a word.
#[derive(Clone, Copy)]
pub enum Rule {
    Name,
    Few,
    Feed,
    Seed,
    Rows,
    Readers,
    Reads,
    Many,
    Period,
    Func,
    Lateness,
}

impl Rule {
    // What is allowed, as the end of a sentence.
    pub fn allowed(self) -> &'static str {
        match self {
            Rule::Name => "it is the name of a file",
            Rule::Few => "it is a number from 1 to 16, with no sign and no leading zero",
            Rule::Feed => "it is turns, or mail",
            Rule::Seed =>
                "it is a number from 0 to 18446744073709551615, with no sign and no leading zero",
            Rule::Rows => "it is a number from 1 to 1000000, with no sign and no leading zero",
            Rule::Readers => "it is a number from 1 to 8, with no sign and no leading zero",
            Rule::Reads => "it is a number from 0 to 1000, with no sign and no leading zero",
            Rule::Many => "it is a number from 1 to 4194304, with no sign and no leading zero",
            Rule::Period =>
                "it is a number from 1 to 10^15, in the time unit of the records, with no sign and no leading zero",
            Rule::Func => "it is one of count, sum, min, max, mean, first, last, rises and trace",
            Rule::Lateness =>
                "it is a number from 0 to 10^15, in the time unit of the records, with no sign and no leading zero",
        }
    }

    // Whether a word is allowed.
    pub fn fits(self, word: &str) -> bool {
        match self {
            Rule::Name => !word.is_empty(),
            Rule::Few => is_within(word, 1, 16),
            Rule::Feed => word == "turns" || word == "mail",
            Rule::Seed => is_within(word, 0, u64::MAX),
            Rule::Rows => is_within(word, 1, 1_000_000),
            Rule::Readers => is_within(word, 1, 8),
            Rule::Reads => is_within(word, 0, 1_000),
            Rule::Many => is_within(word, 1, COUNT_MAX),
            Rule::Period => is_within(word, 1, TIME_MAX),
            Rule::Func => func_named(word).is_some(),
            Rule::Lateness => is_within(word, 0, TIME_MAX),
        }
    }
}

fn is_within(word: &str, least: u64, most: u64) -> bool {
    match word.parse::<u64>() {
        Ok(number) => is_plain(word.as_bytes()) && least <= number && number <= most,
        Err(_) => false,
    }
}

// Whether the digits of a number have no sign in front, and no zero but in 0.
fn is_plain(word: &[u8]) -> bool {
    match word {
        [b'0'] => true,
        [first, ..] => b'1' <= *first && *first <= b'9',
        [] => false,
    }
}
