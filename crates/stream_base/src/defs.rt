ghost use Rattle.std.specs.Prelude.{◌≡◌, ◌≤◌, ◌↔◌, List, IfOk, OnOk, IfErr, Some, None, IsTrue};
ghost use Rattle.std.specs.List.{position};
ghost use Rattle.stream_base.specs.Limits.{definitions_of, limit_fault, AreWindowsOf, AreWithinLimits, is_beyond};

use crate::def::Def;
use crate::limits::{EVERY_MAX, TIME_MAX, WINDOWS_MAX};
use crate::no_memory::NoMemory;
use std::alloc::Global;
use std::error::Error;
use std::fmt;
use std::marker::Model;

/// The window definitions of a run, each within its limits: 1 to 32 windows, the allowed lateness,
/// and how sources make watermarks of their own. Contracts see the list of windows and the three
/// numbers.
#[derive(Debug, Drop)]
pub struct Defs {
    windows: Vec<Def>,
    lateness: u64,
    every: u64,
    disorder: u64,
}

impl Model for Defs {
    ghost use Rattle.stream_base.specs.Limits.{Definitions, AreWithinLimits, definitions_of};

    ghost Value = { Definitions };

    ghost view = { λ d. definitions_of d.windows.items d.lateness d.every d.disorder };

    ghost invariant = { λ d. AreWithinLimits
        (definitions_of d.windows.items d.lateness d.every d.disorder) };
}

/// Which limit the given definitions pass. The first that holds is answered, in this order.
#[derive(Clone, Copy, Debug, PartialEq, Eq)]
pub enum LimitFault {
    /// There is no window, or there are more than 32.
    Many,
    /// With no window named: lateness, every or disorder is too great. Else the first window whose
    /// numbers are beyond their limits.
    Limit { window: Option<u32> },
}

impl Defs {
    /// The definitions of these windows. `lateness` is how far behind the watermark an entry is
    /// still accepted; after each `every` tuples of a source stands a made watermark, `disorder`
    /// below the source's greatest time (0: none are made).
    pub fn new(
        windows: Vec<Def>,
        lateness: u64,
        every: u64,
        disorder: u64,
    ) -> Result<Defs, LimitFault>
        ensures ok { IfOk result (λ d. d ≡ definitions_of windows.items lateness every disorder) }
        ensures valid { OnOk result
            (limit_fault (definitions_of windows.items lateness every disorder) ≡ None) }
        ensures refused { IfErr result
            (λ fault. limit_fault (definitions_of windows.items lateness every disorder)
            ≡ Some fault) }
    {
        if windows.is_empty() || windows.len() > WINDOWS_MAX {
            return Err(LimitFault::Many);
        }
        if lateness > TIME_MAX || every > EVERY_MAX || disorder > TIME_MAX {
            return Err(LimitFault::Limit { window: None });
        }
        if let Some(place) = first_beyond(&windows) {
            return Err(LimitFault::Limit {
                window: Some(place as u32),
            });
        }
        Ok(Defs {
            windows,
            lateness,
            every,
            disorder,
        })
    }

    /// Equal definitions.
    pub fn copy(&self, alloc: Global) -> Result<Defs, NoMemory>
        ensures equal { IfOk result (λ d. d ≡ self.now) }
    {
        Ok(Defs {
            windows: Vec::from_slice(alloc, &self.windows)?,
            lateness: self.lateness,
            every: self.every,
            disorder: self.disorder,
        })
    }

    /// The windows, in order.
    pub fn windows(&self) -> &[Def]
        ensures { AreWindowsOf self.now result.now }
    {
        &self.windows
    }

    /// The allowed lateness, in the sources' unit of time.
    pub fn lateness(&self) -> u64
        ensures value { result ≡ self.now.lateness }
        ensures limits { AreWithinLimits self.now }
    {
        self.lateness
    }

    /// After how many tuples a watermark is made, 0 for never.
    pub fn every(&self) -> u64
        ensures value { result ≡ self.now.every }
        ensures limits { AreWithinLimits self.now }
    {
        self.every
    }

    /// How far behind a source's greatest time its made watermarks stand.
    pub fn disorder(&self) -> u64
        ensures value { result ≡ self.now.disorder }
        ensures limits { AreWithinLimits self.now }
    {
        self.disorder
    }
}

fn first_beyond(windows: &[Def]) -> Option<usize>
    ensures { result ≡ position is_beyond windows.now }
{
    windows.iter().position(|w| !w.kind.is_within_limits())
}
