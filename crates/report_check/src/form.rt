//! The form of a report.
ghost use Rattle.std.specs.Prelude.{◌≡◌};
ghost use Rattle.report_check.specs.Findings.{form_in};
ghost use Rattle.report_lines.specs.Forms.{form_of};

use report_lines::{ReportForm, split_line};

/// The form that a text is told in, by its first line.
pub fn form_of_text(text: &[u8]) -> ReportForm
    ensures { form_of result ≡ form_in text.now }
{
    if text.is_empty() {
        return ReportForm::One;
    }
    let (line, _behind) = split_line(text);
    if line == b"report 2".as_slice() {
        ReportForm::Two
    } else {
        ReportForm::One
    }
}
