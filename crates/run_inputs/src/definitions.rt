//! The definitions file is opened, read and refused or accepted.
ghost use Rattle.std.specs.Prelude.{◌≡◌, Ok, IfOk, IfErr, IsOkAnd};
ghost use Rattle.window_defs.specs.Reading.{reading_of};
ghost use Rattle.run_inputs.specs.Outside.{ReadsFile};
ghost use Rattle.run_inputs.specs.Causes.{AreDefinitionsRead, StopsAtBytes, StopsAtDefs, StopsAtReading};

use emission_text::Fault;
use outside::Files;
use source_feed::{WholeFault, read_whole};
use std::alloc::Global;
use stream_base::Defs;
use window_defs::{BYTES_MAX, DefsFault, read_defs};

/// The definitions in the file of this name, where they are accepted. The file is given back.
pub fn read_definitions<F: Files>(alloc: Global, files: &mut F, name: &str) -> Result<Defs, Fault>
    ensures { ReadsFile F.asked F.came F.told name.now files.old files.new result
        AreDefinitionsRead (StopsAtDefs name.now) }
{
    match files.open_file(name) {
        Err(_) => Err(Fault::Unopened { place: None }),
        Ok(mut source) => {
            let bytes = read_whole(alloc, &mut source, BYTES_MAX as u64);
            files.give_back(source);
            accept(alloc, bytes)
        }
    }
}

fn accept(alloc: Global, bytes: Result<Vec<u8>, WholeFault>) -> Result<Defs, Fault>
    ensures read { IfOk result (λ defs. IsOkAnd bytes (λ read. reading_of read.items ≡ Ok defs)) }
    ensures stopped { IfErr result (StopsAtReading bytes) }
{
    match bytes {
        Err(WholeFault::Read) => Err(Fault::Read { place: None }),
        Err(WholeFault::TooLong) => Err(Fault::Defs(DefsFault::Long)),
        Err(WholeFault::NoMemory) => Err(Fault::NoMemory),
        Ok(bytes) => read_bytes(alloc, &bytes),
    }
}

fn read_bytes(alloc: Global, bytes: &[u8]) -> Result<Defs, Fault>
    ensures ok { IfOk result (λ defs. reading_of bytes.now ≡ Ok defs) }
    ensures stopped { IfErr result (StopsAtBytes bytes.now) }
{
    match read_defs(alloc, bytes) {
        Ok(defs) => Ok(defs),
        Err(fault) => Err(Fault::Defs(fault)),
    }
}
