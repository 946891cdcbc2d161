//! What IPC_SET sets of an object of any kind.

ghost use Rattle.std.specs.Prelude.{◌≡◌};
ghost use Rattle.ipc_model.specs.Controls.{owner_in};

use ipc_call::Settings;
use ipc_objects::Owner;
use ipc_perm::Mode;

/// The owner and the permission bits in the settings (msgctl(2), semctl(2), shmctl(2)).
pub fn owner_of(new: Settings) -> Owner
    ensures { result ≡ owner_in new }
{
    Owner {
        uid: new.uid,
        gid: new.gid,
        mode: Mode::from_low_bits(new.mode),
    }
}
