//! The text of the table.

ghost use Rattle.std.specs.Prelude.{◌≡◌, ◌++◌, OnOk, string_bytes};
ghost use Rattle.ipc_live.specs.Text.{entry_text, name_of_ground, object_line, row_text, rows_text, table_text, told_text, verdict_text};

use crate::objects::Object;
use crate::table::{Entry, Row, Told};
use ipc_perm::{Ground, Verdict};
use std::alloc::AllocError;
use std::fmt::Write;

/// Appends the table: for each object its line, and below it a line for each process. The error comes only where an
/// allocation fails, and a part of the text may then stand in `out`; so with each of the printers.
pub fn print_table(out: &mut String, entries: &[Entry<'_>]) -> Result<(), AllocError>
    ensures { OnOk result (string_bytes out.new ≡ string_bytes out.old ++ table_text entries.now) }
{
    for entry in entries {
        print_entry(out, entry)?;
    }
    Ok(())
}

fn print_entry(out: &mut String, entry: &Entry<'_>) -> Result<(), AllocError>
    ensures { OnOk result (string_bytes out.new ≡ string_bytes out.old ++ entry_text entry.now) }
{
    print_object(out, entry.object)?;
    print_rows(out, entry.rows.as_slice())
}

fn print_rows(out: &mut String, rows: &[Row<'_>]) -> Result<(), AllocError>
    ensures { OnOk result (string_bytes out.new ≡ string_bytes out.old ++ rows_text rows.now) }
{
    for row in rows {
        print_row(out, row)?;
    }
    Ok(())
}

/// Appends the line of an object: its kind and identifier, key, mode, owner and creator, each a user and a group.
pub fn print_object(out: &mut String, object: &Object) -> Result<(), AllocError>
    ensures { OnOk result (string_bytes out.new ≡ string_bytes out.old ++ object_line object.now) }
{
    perm_words::print_object(out, object.kind(), object.id, &object.perm)?;
    out.push_str("\n")
}

/// Appends the line of a process.
#[tactic(auto, unfolding(crate::specs::Text::row_text))]
fn print_row(out: &mut String, row: &Row<'_>) -> Result<(), AllocError>
    ensures { OnOk result (string_bytes out.new ≡ string_bytes out.old ++ row_text row.now) }
{
    let (pid, name) = (row.process.pid, row.process.name.as_str());
    write!(out, "  pid {pid} ({name}): ")?;
    print_told(out, row.told)
}

fn print_told(out: &mut String, told: Told) -> Result<(), AllocError>
    ensures { OnOk result (string_bytes out.new ≡ string_bytes out.old ++ told_text told) }
{
    out.push_str("read ")?;
    print_verdict(out, told.read)?;
    out.push_str(", write ")?;
    print_verdict(out, told.write)?;
    out.push_str(", set and remove ")?;
    print_verdict(out, told.control)?;
    out.push_str("\n")
}

/// Appends the ground of a caller that is allowed, or the error and the rule of one that is denied.
pub(crate) fn print_verdict(out: &mut String, verdict: Verdict) -> Result<(), AllocError>
    ensures { OnOk result (string_bytes out.new ≡ string_bytes out.old ++ verdict_text verdict) }
{
    match verdict {
        Verdict::Allowed(ground) => out.push_str(ground_name(ground)),
        Verdict::Denied(rule) => {
            let (error, rule) = (rule.error().name(), rule.name());
            write!(out, "no ({error}, {rule})")
        }
    }
}

#[tactic(auto, unfolding(crate::specs::Text::name_of_ground))]
fn ground_name(ground: Ground) -> &'static str
    ensures { result.now ≡ name_of_ground ground }
{
    match ground {
        Ground::Owner => "owner",
        Ground::Group => "group",
        Ground::Other => "others",
        Ground::IpcOwner => "CAP_IPC_OWNER",
        Ground::SysAdmin => "CAP_SYS_ADMIN",
    }
}
