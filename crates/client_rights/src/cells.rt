//! The cells of a row.

ghost use Rattle.std.specs.Prelude.{◌≡◌, ◌++◌, OnOk, string_bytes};
ghost use Rattle.perm_words.specs.Standing.{class_in};
ghost use Rattle.client_rights.specs.Cells.{
  cell_text,
  cells_text,
  class_cell,
  deciding_cell,
  is_by_ipc_owner,
  is_by_sys_admin,
  is_overridden as overrides,
};

use ipc_live::Told;
use ipc_perm::{Ground, Verdict};
use perm_words::Standing;
use std::alloc::AllocError;

/// Appends whether it may be read, written and controlled.
pub(crate) fn print_cells(out: &mut String, told: Told) -> Result<(), AllocError>
    ensures { OnOk result (string_bytes out.new ≡ string_bytes out.old ++ cells_text told) }
{
    out.push_str(cell(told.read))?;
    out.push_str(cell(told.write))?;
    out.push_str(cell(told.control))?;
    out.push_str("    ")
}

#[tactic(auto, unfolding(crate::specs::Cells::cell_text))]
fn cell(verdict: Verdict) -> &'static str
    ensures { result.now ≡ cell_text verdict }
{
    match verdict {
        Verdict::Allowed(_) => "yes  ",
        Verdict::Denied(_) => "no   ",
    }
}

/// What decides on reading and writing.
pub(crate) fn deciding(standing: Standing, told: Told) -> &'static str
    ensures { result.now ≡ deciding_cell (class_in standing) told }
{
    if is_overridden(told) {
        "CAP_IPC_OWNER  "
    } else {
        class_name(standing)
    }
}

#[tactic(auto, unfolding(crate::specs::Cells::class_cell))]
fn class_name(standing: Standing) -> &'static str
    ensures { result.now ≡ class_cell (class_in standing) }
{
    match standing {
        Standing::Owner | Standing::Creator => "owner          ",
        Standing::OwnersGroup | Standing::CreatorsGroup => "group          ",
        Standing::Other => "others         ",
    }
}

/// Whether CAP_IPC_OWNER allows what the class doesn't.
pub(crate) fn is_overridden(told: Told) -> bool
    ensures { result ≡ overrides told }
{
    by_ipc_owner(told.read) || by_ipc_owner(told.write)
}

fn by_ipc_owner(verdict: Verdict) -> bool
    ensures { result ≡ is_by_ipc_owner verdict }
{
    match verdict {
        Verdict::Allowed(Ground::IpcOwner) => true,
        _ => false,
    }
}

/// Whether CAP_SYS_ADMIN allows what the ownership doesn't.
pub(crate) fn by_sys_admin(verdict: Verdict) -> bool
    ensures { result ≡ is_by_sys_admin verdict }
{
    match verdict {
        Verdict::Allowed(Ground::SysAdmin) => true,
        _ => false,
    }
}
