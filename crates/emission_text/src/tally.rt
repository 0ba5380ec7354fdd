ghost use Rattle.std.specs.Prelude.{◌++◌, ◌∷◌, [], List};
ghost use Rattle.stream_base.specs.declared.row.Row.{Row};
ghost use Rattle.stream_base.specs.Model.Final.{rows_of_window};
ghost use Rattle.emission_text.specs.Summary.{Grew, HasRoom, IsTallyOf};

use stream_base::Row;

// What the rows of one window come to: how many there are, the sum of their numbers, and the last.
#[derive(Clone, Copy)]
pub struct Tally {
    pub rows: u64,
    pub numbers: u128,
    pub last: Option<Row>,
}

impl Tally {
    // That of the rows of a window among these.
    pub fn of_window(window: u32, rows: &[Row]) -> Tally
        ensures { IsTallyOf (rows_of_window window rows.now) result }
    {
        let mut tally = Tally {
            rows: 0,
            numbers: 0,
            last: None,
        };
        for row in rows {
            if row.window == window {
                tally.add(row);
            }
        }
        tally
    }

    // With one row more.
    fn add(&mut self, row: &Row)
        requires { HasRoom self.old }
        ensures counted { (own : List Row) → IsTallyOf own self.old
            → IsTallyOf (own ++ row.now ∷ []) self.new }
        ensures grew { Grew self.old self.new }
    {
        self.rows += 1;
        self.numbers += u128::from(row.number);
        self.last = Some(*row);
    }
}
