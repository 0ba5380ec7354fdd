//! Texts with many like lines, spelled shortly.
use std::alloc::{AllocError, Global};

/// The bytes that a text of a row stands for: a line `A..B REST` stands for a line for each number from A
/// to B, upwards or downwards, with the number in place of each `#`, and a line's end in place of
/// each `|`. Each other line stands for itself.
pub fn spelled(alloc: Global, text: &str) -> Result<String, AllocError> {
    let mut all = String::new(alloc);
    for (i, line) in text.split('\n').enumerate() {
        if i > 0 {
            all.push_str("\n")?;
        }
        match many_of(line) {
            Some(many) => push_many(alloc, &mut all, many)?,
            None => all.push_str(line)?,
        }
    }
    Ok(all)
}

// A line for each number from one to another.
#[derive(Clone, Copy)]
struct Many<'a> {
    first: u64,
    last: u64,
    line: &'a str,
}

fn many_of(line: &str) -> Option<Many<'_>> {
    let (numbers, line) = line.split_once(' ')?;
    let (first, last) = numbers.split_once("..")?;
    Some(Many {
        first: first.parse::<u64>().ok()?,
        last: last.parse::<u64>().ok()?,
        line,
    })
}

fn push_many(alloc: Global, all: &mut String, many: Many<'_>) -> Result<(), AllocError> {
    let steps = many.first.abs_diff(many.last);
    for step in 0..steps {
        push_one(alloc, all, many, step)?;
        all.push_str("\n")?;
    }
    push_one(alloc, all, many, steps)
}

// The line of the number that is so many steps from the first.
fn push_one(alloc: Global, all: &mut String, many: Many<'_>, step: u64) -> Result<(), AllocError> {
    let number = if many.first <= many.last {
        many.first.saturating_add(step)
    } else {
        many.first.saturating_sub(step)
    };
    let number = number.to_string(alloc)?;
    for letter in many.line.chars() {
        match letter {
            '#' => all.push_str(number.as_str())?,
            '|' => all.push('\n')?,
            other => all.push(other)?,
        }
    }
    Ok(())
}
