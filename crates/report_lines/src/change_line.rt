//! The lines of changes.
ghost use Rattle.std.specs.Prelude.{◌≡◌, ◌≤◌, ◌++◌, ◌∷◌, [], OnOk, codes, decimal};
ghost use Rattle.stream_base.specs.Model.Text.{change_lines, end_text, line_of, row_fields, updated_fields};
ghost use Rattle.report_lines.specs.Forms.{form_of};
ghost use Rattle.report_lines.specs.Lines.{Grows, result_text, row_front, span_front};

use crate::line::Line;
use crate::report_form::ReportForm;
use stream_base::{Change, Former, NoMemory, Row, Shown};

/// Puts the lines of changes behind a text, in their order and in a form.
pub fn put_changes(form: ReportForm, changes: &[Change], out: &mut Vec<u8>) -> Result<(), NoMemory>
    ensures { OnOk result
        (out.new.items ≡ out.old.items ++ change_lines (form_of form) changes.now) }
{
    for change in changes {
        put_change(form, change, out)?;
    }
    Ok(())
}

/// Puts the line of a change, in a form.
pub fn put_change(form: ReportForm, change: &Change, out: &mut Vec<u8>) -> Result<(), NoMemory>
    ensures { OnOk result (out.new.items ≡ out.old.items ++ (form_of form).line change.now) }
{
    let mut line = Line::new();
    line.tell_change(form, change);
    out.extend_from_slice(line.text())?;
    Ok(())
}

impl Line {
    /// Tells a change in a form, in place of what was told before.
    pub fn tell_change(&mut self, form: ReportForm, change: &Change)
        ensures { (self.new).text ≡ (form_of form).line change.now }
    {
        self.clear();
        match (form, change) {
            (ReportForm::One, Change::Gone(row)) => self.gone(row),
            (ReportForm::Two, Change::Gone(row)) => self.row(b'-', row),
            (_, Change::New(row)) => self.row(b'+', row),
            (ReportForm::One, Change::Again { row, .. }) => self.row(b'~', row),
            (ReportForm::Two, Change::Again { row, former }) => self.updated(row, former),
            (_, Change::Dropped) => {
                self.byte(b'\n');
                self.byte(b'x');
            }
        }
    }

    // A retraction that leaves out what stood.
    fn gone(&mut self, row: &Row)
        requires text { (self.old).text ≡ [] }
        requires room { 320 ≤ self.old.room }
        ensures { (self.new).text ≡ line_of (codes "-" ∷ decimal (row.now).window
            ∷ decimal (row.now).low ∷ end_text (row.now).high ∷ (row.now).key ∷ []) }
    {
        self.last_key(&row.key);
        self.span_front(b'-', row);
    }

    // A row behind the sign of its change.
    fn row(&mut self, sign: u8, row: &Row)
        requires text { (self.old).text ≡ [] }
        requires room { 320 ≤ self.old.room }
        ensures { (self.new).text ≡ line_of ((sign ∷ []) ∷ row_fields row.now) }
    {
        self.last_key(&row.key);
        self.row_front(sign, row);
    }

    // An updated row, with what stood.
    fn updated(&mut self, row: &Row, former: &Former)
        requires text { (self.old).text ≡ [] }
        requires room { 320 ≤ self.old.room }
        ensures { (self.new).text ≡ line_of (codes "~" ∷ updated_fields row.now former.now) }
    {
        self.last_key(&row.key);
        self.result(former.number, &former.shown);
        self.row_front(b'~', row);
    }

    // The beginning of a row's line, up to its value.
    fn row_front(&mut self, sign: u8, row: &Row)
        requires { 150 ≤ self.old.room }
        ensures { Grows (row_front sign row.now) 150 self.old self.new }
    {
        self.result(row.number, &row.shown);
        self.span_front(sign, row);
    }

    // The number and the value of an instance.
    fn result(&mut self, number: u64, shown: &Shown)
        requires { 83 ≤ self.old.room }
        ensures { Grows (result_text number shown.now) 83 self.old self.new }
    {
        self.byte(b' ');
        self.shown(shown);
        self.byte(b' ');
        self.number(number);
    }

    // The sign, the window, the start and the end.
    fn span_front(&mut self, sign: u8, row: &Row)
        requires { 65 ≤ self.old.room }
        ensures { Grows (span_front sign row.now) 65 self.old self.new }
    {
        self.byte(b' ');
        self.end(row.high);
        self.byte(b' ');
        self.number(row.low);
        self.byte(b' ');
        self.number(u64::from(row.window));
        self.byte(b' ');
        self.byte(sign);
    }
}
