//! How a run is entered, event by event.

ghost use Rattle.std.specs.Prelude.{◌≡◌, ◌++◌, ◌∷◌, [], OnOk, OnErr, Some};
ghost use Rattle.run_picture.specs.Entering.{EndsLast, EndsLastLife, EntersCall};

use crate::run::{Call, End, Lane, Life, Wait};
use std::alloc::{AllocError, Global};

impl Lane {
    /// A lane of this number and name, without lives and calls.
    pub fn new(alloc: Global, number: u32, name: String) -> Lane
        ensures number { result.number ≡ number }
        ensures name { result.name ≡ name }
        ensures lives { result.lives.items ≡ [] }
        ensures calls { result.calls.items ≡ [] }
        ensures waits { result.waits.items ≡ [] }
    {
        Lane {
            number,
            name,
            lives: Vec::new(alloc),
            calls: Vec::new(alloc),
            waits: Vec::new(alloc),
        }
    }

    /// Enters a life that begins. Where an allocation fails, nothing is entered.
    pub fn begin_life(&mut self, life: Life) -> Result<(), AllocError>
        ensures lives { OnOk result (self.new.lives.items ≡ self.old.lives.items ++ life ∷ []) }
        ensures calls { self.new.calls ≡ self.old.calls }
        ensures waits { self.new.waits ≡ self.old.waits }
        ensures number { self.new.number ≡ self.old.number }
        ensures name { self.new.name ≡ self.old.name }
        ensures err { OnErr result (self.new.lives.items ≡ self.old.lives.items) }
    {
        self.lives.push(life)?;
        Ok(())
    }

    /// Enters the end of the latest life, where there is one, by the event at this place.
    pub fn end_life(&mut self, place: u32)
        ensures lives { EndsLastLife place self.old.lives.items self.new.lives.items }
        ensures calls { self.new.calls ≡ self.old.calls }
        ensures waits { self.new.waits ≡ self.old.waits }
        ensures number { self.new.number ≡ self.old.number }
        ensures name { self.new.name ≡ self.old.name }
    {
        if let Some(life) = self.lives.last_mut() {
            life.end = Some(place);
        }
    }

    /// Enters a call. Where an allocation fails, nothing is entered.
    pub fn enter(&mut self, call: Call) -> Result<(), AllocError>
        ensures calls { OnOk result (self.new.calls.items ≡ self.old.calls.items ++ call ∷ []) }
        ensures lives { self.new.lives ≡ self.old.lives }
        ensures waits { self.new.waits ≡ self.old.waits }
        ensures number { self.new.number ≡ self.old.number }
        ensures name { self.new.name ≡ self.old.name }
        ensures err { OnErr result (self.new.calls.items ≡ self.old.calls.items) }
    {
        self.calls.push(call)?;
        Ok(())
    }

    /// Enters a wait that begins. Where an allocation fails, nothing is entered.
    pub fn begin_wait(&mut self, wait: Wait) -> Result<(), AllocError>
        ensures waits { OnOk result (self.new.waits.items ≡ self.old.waits.items ++ wait ∷ []) }
        ensures lives { self.new.lives ≡ self.old.lives }
        ensures calls { self.new.calls ≡ self.old.calls }
        ensures number { self.new.number ≡ self.old.number }
        ensures name { self.new.name ≡ self.old.name }
        ensures err { OnErr result (self.new.waits.items ≡ self.old.waits.items) }
    {
        self.waits.push(wait)?;
        Ok(())
    }

    /// Enters the end of the latest wait, where there is one.
    pub fn end_wait(&mut self, end: End)
        ensures waits { EndsLast end self.old.waits.items self.new.waits.items }
        ensures lives { self.new.lives ≡ self.old.lives }
        ensures calls { self.new.calls ≡ self.old.calls }
        ensures number { self.new.number ≡ self.old.number }
        ensures name { self.new.name ≡ self.old.name }
    {
        if let Some(wait) = self.waits.last_mut() {
            wait.end = Some(end);
        }
    }
}

/// Enters a call in the lane of this number, where there is one.
pub fn enter_call(lanes: &mut Vec<Lane>, number: u32, call: Call) -> Result<(), AllocError>
    ensures { OnOk result (EntersCall number call lanes.old.items lanes.new.items) }
{
    match lanes.get_mut(number as usize) {
        Some(lane) => lane.enter(call),
        None => Ok(()),
    }
}
