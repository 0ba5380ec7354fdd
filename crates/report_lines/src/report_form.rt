ghost use Rattle.std.specs.Prelude.{◌≡◌};
ghost use Rattle.report_lines.specs.Forms.{form_of};

/// The form of a report.
#[derive(Clone, Copy, Debug, PartialEq, Eq)]
pub enum ReportForm {
    /// Retractions and updates leave out what stood before.
    One,
    /// They tell it, so that whoever booked it can undo it. A first line says that the report has
    /// this form.
    Two,
}

impl ReportForm {
    /// What stands in front of all shards.
    pub fn front(self) -> &'static [u8]
        ensures { result.now ≡ (form_of self).front }
    {
        match self {
            ReportForm::One => b"",
            ReportForm::Two => b"report 2\n",
        }
    }
}
