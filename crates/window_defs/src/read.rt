ghost use Rattle.std.specs.Prelude.{◌≡◌, IfOk, IfErr, Ok, Err};
ghost use Rattle.std.specs.Option.{ok_or};
ghost use Rattle.toml.specs.View.{table_view};
ghost use Rattle.window_defs.specs.Document.{document_of};
ghost use Rattle.window_defs.specs.Reading.{Gives, reading_of};
ghost use Rattle.window_defs.specs.declared.defs_fault.DefsFault.TheVariants.{Toml, NoMemory};

use crate::defs_fault::DefsFault;
use crate::top::read_top;
use std::alloc::Global;
use stream_base::Defs;
use toml::Table;

/// The most bytes of a definitions file.
pub const BYTES_MAX: usize = 1_048_576;

/// The window definitions that the bytes of a TOML document spell.
///
/// At the top stand `lateness`, `every` and `disorder`, integers that are 0 where they are missing,
/// and `window`, an array of 1 to 32 tables. Each has exactly `kind` and `func`, both strings, and the
/// integers of its kind: `length` of `"tumbling"`; `length` and `slide` of `"sliding"`; `gap` of
/// `"session"`; none of `"marks"`; `count` of `"events"`. `func` is `"count"`, `"sum"`, `"min"`,
/// `"max"`, `"mean"`, `"first"`, `"last"`, `"rises"` or `"trace"`.
pub fn read_defs(alloc: Global, bytes: &[u8]) -> Result<Defs, DefsFault>
    ensures ok { IfOk result (λ defs. reading_of bytes.now ≡ Ok defs) }
    // A fault for another cause than memory is the one that the bytes have.
    ensures refused { IfErr result (λ fault. ¬ (fault ≡ NoMemory)
        → reading_of bytes.now ≡ Err fault) }
    // Want of memory is never in the bytes.
    ensures memory { ¬ (reading_of bytes.now ≡ Err NoMemory) }
{
    read(alloc, bytes)
}

#[tactic(auto, unfolding(crate::specs::Reading::reading_of))]
fn read(alloc: Global, bytes: &[u8]) -> Result<Defs, DefsFault>
    ensures { Gives (λ defs. defs) result (reading_of bytes.now) }
{
    if bytes.len() > BYTES_MAX {
        return Err(DefsFault::Long);
    }
    let top = document(alloc, bytes)?;
    read_top(alloc, &top)
}

fn document(alloc: Global, bytes: &[u8]) -> Result<Table, DefsFault>
    ensures { Gives (λ top. table_view top) result (ok_or (document_of bytes.now) Toml) }
{
    match toml::table_from_slice(alloc, bytes) {
        Ok(top) => Ok(top),
        Err(error) => {
            if error.is_memory() {
                Err(DefsFault::NoMemory)
            } else {
                Err(DefsFault::Toml)
            }
        }
    }
}
