//! What is told of long work while it goes on.
use std::rt::Clock;
use std::time::{Duration, Instant};

/// After so many seconds it is told what is read.
const BEGINS: u64 = 2;

/// And so many milliseconds pass between two such lines.
const BETWEEN: u64 = 100;

/// Goes back to the beginning of a terminal's line, and empties it.
const EMPTY: &'static str = "\r\x1b[K";

/// When the work began, and when something was told of it.
#[derive(Clone, Copy)]
pub(crate) struct Progress {
    /// None where nothing is told.
    began: Option<Instant>,
    told: Option<Instant>,
}

/// The time now. None where the clock does not tell it.
fn now<R: Clock>(rt: &R) -> Option<Instant> {
    match Instant::now(rt) {
        Ok(instant) => Some(instant),
        Err(_error) => None,
    }
}

impl Progress {
    /// Tells nothing.
    pub(crate) fn silent() -> Progress {
        Progress {
            began: None,
            told: None,
        }
    }

    /// Begins now. `is_shown` says whether anything is told.
    pub(crate) fn begin<R: Clock>(rt: &R, is_shown: bool) -> Progress {
        Progress {
            began: if is_shown { now(rt) } else { None },
            told: None,
        }
    }

    /// Whether it is time to tell something.
    fn is_due(&self, began: Instant, now: Instant) -> bool {
        let is_between = match self.told {
            None => true,
            Some(told) => now.saturating_duration_since(told) >= Duration::from_millis(BETWEEN),
        };
        is_between && now.saturating_duration_since(began) >= Duration::from_secs(BEGINS)
    }

    /// Tells that the file of a path is read, where the work takes long.
    pub(crate) fn see<R: Clock + Eprint>(&mut self, rt: &R, path: &str) {
        let (Some(began), Some(now)) = (self.began, now(rt)) else {
            return;
        };
        if self.is_due(began, now) {
            self.told = Some(now);
            let _ = rt.eprint(EMPTY);
            let _ = rt.eprint("reading ");
            let _ = rt.eprint(path);
        }
    }

    /// Takes away what was told.
    pub(crate) fn end<R: Eprint>(&mut self, rt: &R) {
        if self.told.is_some() {
            let _ = rt.eprint(EMPTY);
        }
        self.began = None;
        self.told = None;
    }
}
