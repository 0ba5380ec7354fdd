//! The definitions of parts, written out.
ghost use Rattle.std.specs.Prelude.{◌≡◌, ◌++◌, [], ◌∷◌, Ok, IfOk, IsErrOf, OnOk, IsTrue, ◌↔◌};
ghost use Rattle.std.specs.List.{flat_map};
ghost use Rattle.window_defs.specs.Reading.{reading_of};
ghost use Rattle.window_defs.specs.Windows.{keyed_numbers};
ghost use Rattle.part_laws.specs.Joined.{part_definitions};
ghost use Rattle.part_text.specs.DefinitionsText.{HasNumbers, definitions_text, kind_text, number_text, numbers_text, window_text};

use crate::defs_text_fault::DefsTextFault;
use itoa::Buffer;
use std::alloc::{AllocError, Global};
use stream_base::{Def, Defs, Kind};
use window_defs::{DefsFault, KeyedNumber, func_word, kind_word, numbers_of, read_defs};

/// The definitions for the parts of sources that are read under these, as a definitions file: no
/// watermark is made, since those that were made are written out, and all else is the same. The text
/// is read back before it is answered, so it spells those definitions.
pub fn part_defs_bytes(alloc: Global, defs: &Defs) -> Result<Vec<u8>, DefsTextFault>
    ensures text { IfOk result (λ bytes.
        bytes.items ≡ definitions_text (part_definitions defs.now)) }
    ensures read_back { IfOk result (λ bytes.
        reading_of bytes.items ≡ Ok (part_definitions defs.now)) }
    ensures unread { IsErrOf result DefsTextFault.Unread
        → ¬ (reading_of (definitions_text (part_definitions defs.now))
        ≡ Ok (part_definitions defs.now)) }
{
    let text = written(alloc, defs)?;
    match read_defs(alloc, &text) {
        Ok(read) => {
            if are_of_parts(&read, defs) {
                Ok(text)
            } else {
                Err(DefsTextFault::Unread)
            }
        }
        Err(DefsFault::NoMemory) => Err(DefsTextFault::NoMemory),
        Err(_) => Err(DefsTextFault::Unread),
    }
}

// Whether the first definitions are those of parts under the second.
fn are_of_parts(read: &Defs, defs: &Defs) -> bool
    ensures { IsTrue result ↔ (read.now ≡ part_definitions defs.now) }
{
    let windows = have_same_windows(read, defs);
    let numbers = has_numbers(read, defs.lateness(), 0, defs.disorder());
    windows && numbers
}

fn have_same_windows(read: &Defs, defs: &Defs) -> bool
    ensures { IsTrue result ↔ (read.now.windows ≡ defs.now.windows) }
{
    are_all_same(read.windows(), defs.windows())
}

fn are_all_same(left: &[Def], right: &[Def]) -> bool
    ensures { IsTrue result ↔ (left.now ≡ right.now) }
{
    left == right
}

fn has_numbers(read: &Defs, lateness: u64, every: u64, disorder: u64) -> bool
    ensures { IsTrue result ↔ HasNumbers lateness every disorder read.now }
{
    read.lateness() == lateness && read.every() == every && read.disorder() == disorder
}

// The text of the definitions of parts.
fn written(alloc: Global, defs: &Defs) -> Result<Vec<u8>, AllocError>
    ensures { IfOk result (λ bytes.
        bytes.items ≡ definitions_text (part_definitions defs.now)) }
{
    let mut text = Vec::new(alloc);
    put_numbers(defs.lateness(), 0, defs.disorder(), &mut text)?;
    put_windows(defs.windows(), &mut text)?;
    Ok(text)
}

fn put_numbers(
    lateness: u64,
    every: u64,
    disorder: u64,
    text: &mut Vec<u8>,
) -> Result<(), AllocError>
    ensures { OnOk result (text.new.items
        ≡ text.old.items ++ numbers_text lateness every disorder) }
{
    let mut first = Buffer::new();
    let mut second = Buffer::new();
    let mut third = Buffer::new();
    let lateness = first.format(lateness).as_bytes();
    let every = second.format(every).as_bytes();
    let disorder = third.format(disorder).as_bytes();
    let pieces: [&[u8]; 7] = [
        b"lateness = ",
        lateness,
        b"\nevery = ",
        every,
        b"\ndisorder = ",
        disorder,
        b"\n",
    ];
    put_pieces(&pieces, text)
}

fn put_windows(windows: &[Def], text: &mut Vec<u8>) -> Result<(), AllocError>
    ensures { OnOk result (text.new.items ≡ text.old.items ++ flat_map window_text windows.now) }
{
    for window in windows {
        put_window(window, text)?;
    }
    Ok(())
}

fn put_window(window: &Def, text: &mut Vec<u8>) -> Result<(), AllocError>
    ensures { OnOk result (text.new.items ≡ text.old.items ++ window_text window.now) }
{
    put_pieces(&[b"\n[[window]]\n"], text)?;
    put_kind(&window.kind, text)?;
    put_pieces(
        &[b"func = \"", func_word(window.func).as_bytes(), b"\"\n"],
        text,
    )
}

fn put_kind(kind: &Kind, text: &mut Vec<u8>) -> Result<(), AllocError>
    ensures { OnOk result (text.new.items ≡ text.old.items ++ kind_text kind.now) }
{
    put_pieces(&[b"kind = \"", kind_word(kind).as_bytes(), b"\"\n"], text)?;
    put_keyed_numbers(&numbers_of(kind), text)
}

fn put_keyed_numbers(numbers: &[Option<KeyedNumber>], text: &mut Vec<u8>) -> Result<(), AllocError>
    ensures { OnOk result (text.new.items
        ≡ text.old.items ++ flat_map number_text (keyed_numbers numbers.now)) }
{
    for number in numbers {
        put_keyed_number(*number, text)?;
    }
    Ok(())
}

fn put_keyed_number(number: Option<KeyedNumber>, text: &mut Vec<u8>) -> Result<(), AllocError>
    ensures { OnOk result (text.new.items
        ≡ text.old.items ++ flat_map number_text (keyed_numbers (number ∷ []))) }
{
    match number {
        Some(KeyedNumber { key, number }) => {
            let mut buffer = Buffer::new();
            let number = buffer.format(number).as_bytes();
            put_pieces(&[key.as_bytes(), b" = ", number, b"\n"], text)
        }
        None => Ok(()),
    }
}

// Puts pieces of text one behind the other.
fn put_pieces(pieces: &[&[u8]], text: &mut Vec<u8>) -> Result<(), AllocError>
    ensures { OnOk result (text.new.items
        ≡ text.old.items ++ flat_map (λ piece. piece.now) pieces.now) }
{
    for piece in pieces {
        text.extend_from_slice(piece)?;
    }
    Ok(())
}
