ghost use Rattle.std.specs.Prelude.{◌≡◌, ℤ, List, None, Some};
ghost use Rattle.stream_base.specs.Model.Functions.{fold_of, greatest, least};
ghost use Rattle.aggregates.specs.Values.{IsPick};

use std::marker::Model;

// The least and the greatest of some values. Of none the least is above every number, and the
// greatest below.
#[derive(Clone, Copy, Debug)]
pub struct Extremes {
    least: i64,
    most: i64,
}

impl Model for Extremes {
    ghost use Rattle.std.specs.Prelude.{ℤ, Option};

    ghost Value = { Option ℤ × Option ℤ };

    ghost use Rattle.aggregates.specs.Ranges.{AreExtremes, extremes_of, extremes_of-range, range_of};

    ghost view = { range_of };

    ghost invariant = { AreExtremes };

    ghost inverse = { extremes_of };

    ghost inverse_ok = { extremes_of-range };
}

impl Extremes {
    // Of no values.
    pub fn none() -> Extremes
        ensures { result ≡ (None, None) }
    {
        Extremes {
            least: i64::MAX,
            most: i64::MIN,
        }
    }

    // Of one value.
    pub fn of(value: i64) -> Extremes
        ensures { result ≡ (Some value, Some value) }
    {
        Extremes {
            least: value,
            most: value,
        }
    }

    // Of the values whose least and greatest these are.
    pub fn from(low: Option<i64>, high: Option<i64>) -> Extremes
        ensures { (values : List ℤ) → low ≡ fold_of least values → high ≡ fold_of greatest values
            → result ≡ (fold_of least values, fold_of greatest values) }
    {
        let Some(least) = low else {
            return Extremes::none();
        };
        let Some(most) = high else {
            return Extremes::none();
        };
        if most < least {
            return Extremes::none();
        }
        Extremes { least, most }
    }

    // Of the values of both.
    pub fn with(self, right: Extremes) -> Extremes
        ensures { result ≡ (least.combine self.0 right.0, greatest.combine self.1 right.1) }
    {
        Extremes {
            least: self.least.min(right.least),
            most: self.most.max(right.most),
        }
    }

    pub fn least(self) -> Option<i64>
        ensures value { result ≡ self.0 }
        ensures fits { IsPick self.0 }
    {
        if self.most < self.least {
            None
        } else {
            Some(self.least)
        }
    }

    pub fn most(self) -> Option<i64>
        ensures value { result ≡ self.1 }
        ensures fits { IsPick self.1 }
    {
        if self.most < self.least {
            None
        } else {
            Some(self.most)
        }
    }
}
