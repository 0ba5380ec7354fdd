//! The reports that are joined are read, one after another.
ghost use Rattle.std.specs.Prelude.{◌≡◌, ◌≤◌, length, Ok, Err, IfOk, IfErr};
ghost use Rattle.run_inputs.specs.Outside.{EndsOver, ReadsFile};
ghost use Rattle.report_check.specs.Findings.{lists_of};
ghost use Rattle.source_feed.specs.declared.whole_fault.WholeFault.{WholeFault};
ghost use Rattle.part_run.specs.Joining.{AreTexts, IsTextRead, StopsAtReports, StopsAtText, text_fault};

use emission_text::Fault;
use outside::Files;
use source_feed::{SOURCE_MAX, WholeFault, read_whole};
use std::alloc::Global;

/// The bytes of the files of these names, in their order. Each is given back before the next is
/// opened, and none is opened behind one that is in trouble.
pub fn read_reports<F: Files>(
    alloc: Global,
    files: &mut F,
    names: &[String],
) -> Result<Vec<Vec<u8>>, Fault>
    requires { length names.now ≤ 65535 }
    ensures { EndsOver F.asked F.came F.told names.now files.old files.new result
        (λ named opens texts. AreTexts named opens (lists_of texts.items)) StopsAtReports }
{
    let mut texts = match Vec::with_capacity(alloc, names.len()) {
        Ok(texts) => texts,
        Err(_) => return Err(Fault::NoMemory),
    };
    for i in 0..names.len() {
        match read_report(alloc, files, names[i].as_str(), i as u16) {
            Ok(text) => texts.push_reserved(text),
            Err(fault) => return Err(fault),
        }
    }
    Ok(texts)
}

// The bytes of the file of this name, which is the report of this number. The file is given back.
fn read_report<F: Files>(
    alloc: Global,
    files: &mut F,
    name: &str,
    report: u16,
) -> Result<Vec<u8>, Fault>
    ensures { ReadsFile F.asked F.came F.told name.now files.old files.new result
        (λ opens text. IsTextRead opens text.items) (StopsAtText report) }
{
    match files.open_file(name) {
        Err(_) => Err(Fault::Unopened {
            place: Some(report),
        }),
        Ok(mut source) => {
            let bytes = read_whole(alloc, &mut source, SOURCE_MAX);
            files.give_back(source);
            text_of(bytes, report)
        }
    }
}

fn text_of(bytes: Result<Vec<u8>, WholeFault>, report: u16) -> Result<Vec<u8>, Fault>
    ensures ok { IfOk result (λ text. bytes ≡ Ok text) }
    ensures stopped { IfErr result (λ fault. (cause : WholeFault) × (bytes ≡ Err cause)
        × (fault ≡ text_fault report cause)) }
{
    match bytes {
        Ok(text) => Ok(text),
        Err(WholeFault::Read) => Err(Fault::Read {
            place: Some(report),
        }),
        Err(WholeFault::TooLong) => Err(Fault::FullSource { source: report }),
        Err(WholeFault::NoMemory) => Err(Fault::NoMemory),
    }
}
