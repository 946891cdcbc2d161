// The calls of a line, one after another.

ghost use Rattle.std.specs.Prelude.{◌≡◌, ◌<◌, IfOk, OnOk, length, string_bytes};
ghost use Rattle.ipcsh.specs.Commands.{id_answered, made, part_made};
ghost use Rattle.ipcsh.specs.Leading.{Leads};
ghost use Rattle.ipcsh.specs.Output.{CarriesOut};

use crate::listeners::Listener;
use crate::readings::Reading;
use crate::session::Session;
use ipc_call::{Call, Memory, Reply};
use ipc_commands::{answered_id, get_of};
use ipc_space::Effects;
use ipc_text::{Command, Part, Parts, print_reply};
use std::alloc::Global;

impl Session {
    /// Makes the calls of a line in turn, and prints their rows. Where one waits, those behind it aren't made.
    #[inline(always)]
    pub(crate) fn make_all<L: Listener>(
        &mut self,
        alloc: Global,
        client: u32,
        command: Command,
        rows: &mut String,
        listener: &mut L,
    ) -> Result<(), Memory>
        requires { client < length self.old.names }
        ensures does { OnOk result (CarriesOut self.old (Reading.Command client command) self.new (string_bytes rows.old) (string_bytes rows.new)) }
        ensures lines { OnOk result (self.new.lines ≡ self.old.lines) }
    {
        match command.into_parts() {
            Parts::One(part) => self.make(alloc, client, part, rows, listener),
            Parts::Many(parts) => self.make_each(alloc, client, parts, rows, listener),
        }
    }

    /// Makes the calls of the parts in turn, and prints their rows.
    #[cold]
    #[inline(never)]
    fn make_each<L: Listener>(
        &mut self,
        alloc: Global,
        client: u32,
        parts: Vec<Part>,
        rows: &mut String,
        listener: &mut L,
    ) -> Result<(), Memory>
        requires { client < length self.old.names }
        ensures does { OnOk result (CarriesOut self.old (Reading.Command client parts.items) self.new (string_bytes rows.old) (string_bytes rows.new)) }
        ensures lines { OnOk result (self.new.lines ≡ self.old.lines) }
    {
        for part in parts {
            self.make(alloc, client, part, rows, listener)?;
        }
        Ok(())
    }

    /// Makes the calls of a part in turn, and prints their rows.
    #[inline(always)]
    fn make<L: Listener>(
        &mut self,
        alloc: Global,
        client: u32,
        part: Part,
        rows: &mut String,
        listener: &mut L,
    ) -> Result<(), Memory>
        requires { client < length self.old.names }
        ensures does { OnOk result (Leads (λ p. part_made client p part) (λ p. p) self.old self.new (string_bytes rows.old) (string_bytes rows.new)) }
        ensures names { OnOk result (self.new.names ≡ self.old.names) }
        ensures lines { OnOk result (self.new.lines ≡ self.old.lines) }
    {
        match part {
            Part::Plain(call) => {
                self.call(alloc, client, call, rows, listener)?;
            }
            Part::RemoveByKey(kind, key) => {
                if let Some(id) = self.call(alloc, client, get_of(kind, key), rows, listener)? {
                    self.call(alloc, client, Call::IpcRmid { kind, id }, rows, listener)?;
                }
            }
        }
        Ok(())
    }

    /// Makes a call, unless the client waits, and prints the rows of its event, or the row of a refusal of
    /// memory. Gives the identifier that it is answered.
    fn call<L: Listener>(
        &mut self,
        alloc: Global,
        client: u32,
        call: Call,
        rows: &mut String,
        listener: &mut L,
    ) -> Result<Option<u32>, Memory>
        requires { client < length self.old.names }
        ensures does { IfOk result (λ id. Leads (made client call) (λ p. (p, id)) self.old self.new (string_bytes rows.old) (string_bytes rows.new)) }
        ensures names { OnOk result (self.new.names ≡ self.old.names) }
        ensures lines { OnOk result (self.new.lines ≡ self.old.lines) }
    {
        if self.is_waiting(client) {
            return Ok(None);
        }
        self.start(alloc)?;
        self.tell_entering(client, &call, listener);
        match self.apply(client, call) {
            Ok(effects) => {
                self.print_effects(client, &effects, rows)?;
                self.tell_effects(client, &effects, listener);
                Ok(id_of(&effects))
            }
            Err(_) => {
                print_reply(rows, self.name_at(client), &Reply::Memory)?;
                Ok(None)
            }
        }
    }
}

/// The identifier that an event's own call is answered.
fn id_of(effects: &Effects) -> Option<u32>
    ensures { result ≡ id_answered effects.now.own }
{
    match &effects.own {
        Some(reply) => answered_id(reply),
        None => None,
    }
}
