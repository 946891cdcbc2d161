// What hears of the lines of a script while they are read, and of its calls while they are made.

ghost use Rattle.std.specs.Prelude.{◌≡◌};

use ipc_call::Call;
use ipc_space::{Effects, Space};
use ipc_text::{Command, Line, Reason};

/// Hears of lines as they are read, in their order and by their numbers from 1, and of calls as they are answered. What it
/// does is its own: it can't fail, and changes no row, count or status. It may look at the namespace, and leaves it as it is.
pub trait Listener {
    /// The line of a new client.
    fn client(&mut self, number: u64, text: &[u8]);

    /// A line with calls of this client; clients are counted from 0.
    fn calls(&mut self, number: u64, client: u32, text: &[u8], command: &Command);

    /// A bad line.
    fn bad(&mut self, number: u64, line: &Line<'_>, reason: Reason);

    /// A call of this client is entered next, in the namespace as it is now. Where memory is refused it isn't, and nothing
    /// is answered.
    fn entering(&mut self, space: &Space, client: u32, call: &Call);

    /// A call of this client was entered as the latest event, whose rows have been printed.
    fn answered(&mut self, space: &mut Space, client: u32, effects: &Effects)
        ensures { space.new ≡ space.old };

    /// The script has ended, and some call was made.
    fn ended(&mut self, space: &mut Space)
        ensures { space.new ≡ space.old };

    /// The rows of the lines so far were written; the next read comes after this, or the script has ended.
    fn written(&mut self);
}

/// Nothing listens.
impl Listener for () {
    fn client(&mut self, _number: u64, _text: &[u8]) {}

    fn calls(&mut self, _number: u64, _client: u32, _text: &[u8], _command: &Command) {}

    fn bad(&mut self, _number: u64, _line: &Line<'_>, _reason: Reason) {}

    fn entering(&mut self, _space: &Space, _client: u32, _call: &Call) {}

    fn answered(&mut self, _space: &mut Space, _client: u32, _effects: &Effects) {}

    fn ended(&mut self, _space: &mut Space) {}

    fn written(&mut self) {}
}
