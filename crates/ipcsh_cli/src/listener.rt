// What the program tells of the lines of its script on standard error.

use ipc_call::{Call, Memory};
use ipc_hints::Hints;
use ipc_space::{Effects, Space};
use ipc_text::{Command, Line, Reason};
use ipcsh::Listener;
use std::alloc::Global;

/// Collects hints on the lines, and prints them when the rows of the lines were written. A hint for which an allocation
/// fails, or which can't be printed, is dropped.
#[derive(Drop)]
pub(crate) struct Explainer<'a, P> {
    to: &'a P,
    alloc: Global,
    /// None since a client couldn't be noted.
    hints: Option<Hints>,
    text: String,
}

impl<'a, P: Eprint> Explainer<'a, P> {
    /// Before the first line.
    pub(crate) fn new(to: &'a P, alloc: Global) -> Explainer<'a, P> {
        Explainer {
            to,
            alloc,
            hints: Some(Hints::new(alloc)),
            text: String::new(alloc),
        }
    }

    /// Prints what is told at the end.
    pub(crate) fn finish(&mut self) {
        let mut hint = String::new(self.alloc);
        if let Some(hints) = &self.hints {
            let whole = hints.finish(&mut hint);
            self.keep(whole, &hint);
        }
        self.written();
    }

    /// Keeps a hint that is whole.
    fn keep(&mut self, whole: Result<(), Memory>, hint: &str) {
        if whole.is_ok() {
            let _ = self.text.push_str(hint);
        }
    }
}

impl<P: Eprint> Listener for Explainer<'_, P> {
    fn client(&mut self, number: u64, text: &[u8]) {
        if let Some(hints) = &mut self.hints {
            if hints.client(number, text).is_err() {
                self.hints = None;
            }
        }
    }

    fn calls(&mut self, number: u64, client: u32, text: &[u8], command: &Command) {
        if let Some(hints) = &mut self.hints {
            if hints.calls(number, client, command) {
                let mut hint = String::new(self.alloc);
                let whole = hints.warn(number, text, &mut hint);
                self.keep(whole, &hint);
            }
        }
    }

    fn bad(&mut self, number: u64, line: &Line<'_>, reason: Reason) {
        let mut hint = String::new(self.alloc);
        if let Some(hints) = &mut self.hints {
            let whole = hints.bad(number, line, reason, &mut hint);
            self.keep(whole, &hint);
        }
    }

    fn entering(&mut self, _space: &Space, _client: u32, _call: &Call) {}

    fn answered(&mut self, _space: &mut Space, _client: u32, _effects: &Effects) {}

    fn ended(&mut self, _space: &mut Space) {}

    fn written(&mut self) {
        if !self.text.is_empty() {
            let _ = self.to.eprint(self.text.as_str());
            self.text.clear();
        }
    }
}
