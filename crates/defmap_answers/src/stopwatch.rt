//! How long stages take.
use std::alloc::AllocError;
use std::fmt::Write;
use std::rt::Clock;
use std::time::{Duration, Instant};

/// A stage, and how long it took.
#[derive(Clone, Copy)]
struct Stage {
    name: &'static str,
    time: Duration,
}

/// A clock that tells how long each stage took.
pub struct Stopwatch {
    began: Option<Instant>,
    stages: Vec<Stage>,
}

/// A hand-written `Drop`, to keep proofs small: what drops one has one call to prove.
impl Drop for Stopwatch {
    fn drop(self) {
        let Stopwatch {
            began: _began,
            stages: _stages,
        } = self;
    }
}

/// The time now. None where the clock does not tell it.
fn now<R: Clock>(rt: &R) -> Option<Instant> {
    match Instant::now(rt) {
        Ok(instant) => Some(instant),
        Err(_error) => None,
    }
}

impl Stopwatch {
    pub fn start<R: Clock + AllocGlobal>(rt: &R) -> Stopwatch {
        Stopwatch {
            began: now(rt),
            stages: Vec::new(rt.alloc()),
        }
    }

    /// Ends a stage.
    pub fn end<R: Clock>(&mut self, rt: &R, name: &'static str) -> Result<(), AllocError> {
        let ended = now(rt);
        if let (Some(began), Some(ended)) = (self.began, ended) {
            let time = ended.saturating_duration_since(began);
            self.stages.push(Stage { name, time })?;
        }
        self.began = ended;
        Ok(())
    }

    /// Adds a line for each stage.
    pub fn push_lines(&self, out: &mut String) -> Result<(), AllocError> {
        for stage in &self.stages {
            write!(out, "{}: {} us\n", stage.name, stage.time.as_micros())?;
        }
        Ok(())
    }
}
