//! Keys as fields and as strings.
ghost use Rattle.std.specs.Prelude.{◌≡◌, ◌++◌, ◌∷◌, [], OnOk};
ghost use Rattle.std.specs.List.{flat_map};
ghost use Rattle.csv.specs.Writing.{default_writer, field_text, needs_quotes};
ghost use Rattle.row_text.specs.Lines.{csv_byte, csv_field, csv_quoted, json_byte, json_string};

use stream_base::NoMemory;

/// Puts bytes as a field of comma-separated values: between quotes where one of them calls for these,
/// with each quote twice.
pub fn put_field(bytes: &[u8], out: &mut Vec<u8>) -> Result<(), NoMemory>
    ensures { OnOk result (out.new.items
        ≡ out.old.items ++ field_text default_writer bytes.now) }
{
    put_plain_or_quoted(bytes, out)
}

fn put_plain_or_quoted(bytes: &[u8], out: &mut Vec<u8>) -> Result<(), NoMemory>
    ensures { OnOk result (out.new.items ≡ out.old.items ++ csv_field bytes.now) }
{
    if needs_quotes(bytes) {
        put_quoted(bytes, out)
    } else {
        out.extend_from_slice(bytes)?;
        Ok(())
    }
}

fn needs_quotes(bytes: &[u8]) -> bool
    ensures { result ≡ needs_quotes default_writer bytes.now }
{
    bytes.iter().any(|byte| *byte == 44 || *byte == 34 || *byte == 13 || *byte == 10)
}

fn put_quoted(bytes: &[u8], out: &mut Vec<u8>) -> Result<(), NoMemory>
    ensures { OnOk result (out.new.items ≡ out.old.items ++ csv_quoted bytes.now) }
{
    out.push(34)?;
    put_escaped(bytes, out)?;
    out.push(34)?;
    Ok(())
}

fn put_escaped(bytes: &[u8], out: &mut Vec<u8>) -> Result<(), NoMemory>
    ensures { OnOk result (out.new.items ≡ out.old.items ++ flat_map csv_byte bytes.now) }
{
    for byte in bytes {
        put_csv_byte(*byte, out)?;
    }
    Ok(())
}

fn put_csv_byte(byte: u8, out: &mut Vec<u8>) -> Result<(), NoMemory>
    ensures { OnOk result (out.new.items ≡ out.old.items ++ csv_byte byte) }
{
    if byte == 34 {
        out.push(34)?;
    }
    out.push(byte)?;
    Ok(())
}

/// Puts bytes as a JSON string. They have no control characters, and where they are UTF-8, so is it.
pub fn put_string(bytes: &[u8], out: &mut Vec<u8>) -> Result<(), NoMemory>
    ensures { OnOk result (out.new.items ≡ out.old.items ++ json_string bytes.now) }
{
    out.push(34)?;
    put_bytes(bytes, out)?;
    out.push(34)?;
    Ok(())
}

fn put_bytes(bytes: &[u8], out: &mut Vec<u8>) -> Result<(), NoMemory>
    ensures { OnOk result (out.new.items ≡ out.old.items ++ flat_map json_byte bytes.now) }
{
    for byte in bytes {
        put_json_byte(*byte, out)?;
    }
    Ok(())
}

fn put_json_byte(byte: u8, out: &mut Vec<u8>) -> Result<(), NoMemory>
    ensures { OnOk result (out.new.items ≡ out.old.items ++ json_byte byte) }
{
    if byte == 34 || byte == 92 {
        out.push(92)?;
    }
    out.push(byte)?;
    Ok(())
}
