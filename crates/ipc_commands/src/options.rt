// The options of the commands, and what words give of them.

ghost use Rattle.std.specs.Prelude.{◌≡◌, IfOk, IfSome, false, map, option_map, true};
ghost use Rattle.clap.specs.Words.{app_of, found_of, is_simple_and_free, rows_of, rule_of, first_of, subcommand_of, subcommand_rows_of};
ghost use Rattle.ipc_commands.specs.Options.{flag_rule, ipcmk_app, ipcrm_app, ipcs_app, is_set as set_in, matched, value_rule};

use clap::error::ErrorKind;
use clap::{Arg, ArgAction, ArgMatches, Command};
use std::alloc::{AllocError, Global};

pub(crate) fn ipcs<'a>(alloc: Global) -> Result<Command<'a>, AllocError>
    ensures { IfOk result (λ command. app_of command ≡ ipcs_app) }
{
    Command::new(alloc, "ipcs")
        .arg(flag(alloc, "q", 'q'))?
        .arg(flag(alloc, "m", 'm'))?
        .arg(flag(alloc, "s", 's'))
}

pub(crate) fn ipcrm<'a>(alloc: Global) -> Result<Command<'a>, AllocError>
    ensures { IfOk result (λ command. app_of command ≡ ipcrm_app) }
{
    Command::new(alloc, "ipcrm")
        .arg(value(alloc, "q", 'q'))?
        .arg(value(alloc, "m", 'm'))?
        .arg(value(alloc, "s", 's'))?
        .arg(value(alloc, "Q", 'Q'))?
        .arg(value(alloc, "M", 'M'))?
        .arg(value(alloc, "S", 'S'))
}

pub(crate) fn ipcmk<'a>(alloc: Global) -> Result<Command<'a>, AllocError>
    ensures { IfOk result (λ command. app_of command ≡ ipcmk_app) }
{
    Command::new(alloc, "ipcmk")
        .arg(flag(alloc, "Q", 'Q'))?
        .arg(value(alloc, "M", 'M'))?
        .arg(value(alloc, "S", 'S'))?
        .arg(value(alloc, "p", 'p'))
}

fn flag<'a>(alloc: Global, id: &'a str, letter: char) -> Arg<'a>
    ensures rule { rule_of result ≡ flag_rule id.entry.now letter }
    ensures local { result.global ≡ false }
{
    Arg::new(alloc, id).short(letter).action(ArgAction::SetTrue)
}

fn value<'a>(alloc: Global, id: &'a str, letter: char) -> Arg<'a>
    ensures rule { rule_of result ≡ value_rule id.entry.now letter }
    ensures local { result.global ≡ false }
{
    Arg::new(alloc, id).short(letter).action(ArgAction::Set)
}

// What the words, of which the first is the command's own, give; None where it doesn't take them.
pub(crate) fn matches<'a>(
    command: Command<'a>,
    words: &'a [&'a str],
) -> Result<Option<ArgMatches<'a>>, AllocError>
    requires { is_simple_and_free (app_of command) ≡ true }
    ensures rows { IfOk result (λ found. option_map (λ m. rows_of (found_of m)) found ≡ matched (app_of command.entry) (map (λ s. s.now) words.now)) }
    ensures subcommand { IfOk result (λ found. IfSome found (λ m. subcommand_rows_of m ≡ subcommand_of (app_of command.entry) (map (λ s. s.now) words.now))) }
{
    match command.try_get_matches_from(words) {
        Ok(matches) => Ok(Some(matches)),
        Err(error) if error.kind() == ErrorKind::OutOfMemory => Err(AllocError),
        Err(_) => Ok(None),
    }
}

// Whether the option was given.
pub(crate) fn is_set(matches: &ArgMatches<'_>, id: &str) -> bool
    ensures { result ≡ set_in id.now (rows_of (found_of matches.now)) }
{
    matches.get_str(id).unwrap_or("") == "true"
}

// The value that the option was given.
pub(crate) fn value_of<'a>(matches: &ArgMatches<'a>, id: &str) -> Option<&'a [u8]>
    ensures { option_map (λ value. value.now) result ≡ first_of id.now (rows_of (found_of matches.now)) }
{
    Some(matches.get_str(id)?.as_bytes())
}
