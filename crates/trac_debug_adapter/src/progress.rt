//! What the editor is told of a run that takes long.

use crate::outbox::Outbox;
use crate::running::Way;
use serde_json::json;
use std::alloc::{AllocError, Global};

/// What the editor is told of runs that take long.
#[derive(Drop)]
pub(crate) struct Progress {
    global: Global,
    /// Whether it wants to be told.
    pub(crate) is_wanted: bool,
    // the number of the run of which it was told last
    number: u64,
    // whether that goes on
    goes_on: bool,
}

impl Progress {
    /// Nothing. It takes no memory.
    pub(crate) fn new(global: Global) -> Self {
        Progress {
            global,
            is_wanted: false,
            number: 0,
            goes_on: false,
        }
    }

    /// A run goes on that took so many steps so far. The error is that memory was refused, here and below.
    pub(crate) fn tell(
        &mut self,
        way: Way,
        steps: u64,
        outbox: &mut Outbox,
    ) -> Result<(), AllocError> {
        if !self.is_wanted {
            return Ok(());
        }
        if !self.goes_on {
            self.goes_on = true;
            self.number = self.number.saturating_add(1);
            return self.tell_start(way, steps, outbox);
        }
        let (id, message) = (self.id()?, self.steps(steps)?);
        let body = json!(in self.global; {
            "progressId": id.as_str(), "message": message.as_str()
        })?;
        outbox.tell("progressUpdate", body)
    }

    // A run goes on of which the editor was not told.
    fn tell_start(&mut self, way: Way, steps: u64, outbox: &mut Outbox) -> Result<(), AllocError> {
        let title = match way {
            Way::On => "The program runs",
            Way::Back => "The program runs back",
        };
        let (id, message) = (self.id()?, self.steps(steps)?);
        let body = json!(in self.global; {
            "progressId": id.as_str(), "title": title, "cancellable": false, "message": message.as_str()
        })?;
        outbox.tell("progressStart", body)
    }

    /// No run goes on.
    pub(crate) fn end(&mut self, outbox: &mut Outbox) -> Result<(), AllocError> {
        if !self.goes_on {
            return Ok(());
        }
        self.goes_on = false;
        let id = self.id()?;
        let body = json!(in self.global; {"progressId": id.as_str()})?;
        outbox.tell("progressEnd", body)
    }

    // How the editor knows the run.
    fn id(&self) -> Result<String, AllocError> {
        let number = self.number;
        format!(in self.global; "run {number}")
    }

    // How far a run is.
    fn steps(&self, steps: u64) -> Result<String, AllocError> {
        format!(in self.global; "{steps} steps")
    }
}
