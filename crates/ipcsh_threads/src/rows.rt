// The rows at the end of the threads.

ghost use Rattle.std.specs.Prelude.{◌≡◌, ◌≤◌, ◌++◌, OnOk, length, map, string_bytes};
ghost use Rattle.ipcsh_threads.specs.Rows.{count_row, count_rows, object_lines, object_line};

use ipc_call::{Memory, Row};
use ipc_jobs::Counts;
use ipc_text::{Name, print_object};
use std::fmt::Write;

/// A row for each client: its name and its counts.
pub(crate) fn print_counts(
    rows: &mut String,
    names: &[Name],
    counts: &[Counts],
) -> Result<(), Memory>
    requires { length names.now ≤ length counts.now }
    ensures { OnOk result (string_bytes rows.new ≡ string_bytes rows.old ++ count_rows names.now counts.now) }
{
    for (client, name) in names.iter().enumerate() {
        print_count(rows, name.as_str(), counts[client])?;
    }
    Ok(())
}

fn print_count(rows: &mut String, name: &str, counts: Counts) -> Result<(), Memory>
    ensures { OnOk result (string_bytes rows.new ≡ string_bytes rows.old ++ count_row (name.now, counts)) }
{
    let Counts {
        calls,
        refusals,
        memory,
    } = counts;
    write!(rows, "{name} calls {calls} refused {refusals}")?;
    if memory > 0 {
        write!(rows, " memory {memory}")?;
    }
    write!(rows, "\n")
}

/// The lines of all objects.
pub(crate) fn print_objects(rows: &mut String, lines: &[(Row, Vec<u16>)]) -> Result<(), Memory>
    ensures { OnOk result (string_bytes rows.new ≡ string_bytes rows.old ++ object_lines (map object_line lines.now)) }
{
    for (row, values) in lines {
        print_object(rows, row, values.as_slice())?;
    }
    Ok(())
}
