// What is told of the bad lines of a script on standard error.

use ipc_call::Call;
use ipc_space::{Effects, Space};
use ipc_text::{Command, Line, Reason, print_bad};
use ipcsh::Listener;
use std::alloc::Global;

/// Tells each bad line, by its number and the word of its reason. One for which an allocation fails, or which can't be
/// printed, isn't told; the status says that there was one.
#[derive(Drop)]
pub(crate) struct Teller<'a, P> {
    pub(crate) to: &'a P,
    pub(crate) alloc: Global,
}

impl<P: Eprint> Listener for Teller<'_, P> {
    fn client(&mut self, _number: u64, _text: &[u8]) {}

    fn calls(&mut self, _number: u64, _client: u32, _text: &[u8], _command: &Command) {}

    fn bad(&mut self, number: u64, _line: &Line<'_>, reason: Reason) {
        let mut row = String::new(self.alloc);
        if print_bad(&mut row, number, reason).is_ok() {
            let _ = self.to.eprint(row.as_str());
        }
    }

    fn entering(&mut self, _space: &Space, _client: u32, _call: &Call) {}

    fn answered(&mut self, _space: &mut Space, _client: u32, _effects: &Effects) {}

    fn ended(&mut self, _space: &mut Space) {}

    fn written(&mut self) {}
}
