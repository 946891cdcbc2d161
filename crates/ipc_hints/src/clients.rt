// Client lines.

use ipc_arguments::{
    Argument, Quoted, Told, Word, are_numbers, explain_comment, explain_word, is_one_of, nearest,
};
use ipc_words::{number_32, split_field};
use std::fmt::Write;

/// The capabilities that a client may have.
const CAPS: &str = "IPC_OWNER SYS_ADMIN SYS_RESOURCE SETUID SETGID";

/// The options of a client line, in their order.
const OPTIONS: [&str; 3] = ["groups=", "caps=", "saved="];

/// How many groups a client line may name.
const GROUPS_MAX: usize = 32;

const AFTER_GID: &str = "after GID come groups=10,20, caps=IPC_OWNER, saved=100:10";

const FORM: &str = "client takes NAME UID GID [groups=G,..] [caps=CAP,..] [saved=UID:GID]";

/// Appends what is wrong with the words after `client`.
pub(crate) fn explain_client(out: &mut String, words: &[Word<'_>]) -> Told {
    match words {
        [] => write!(out, "{FORM}; NAME is missing"),
        [name, ..] if !is_name(name.bytes) => explain_name(out, *name),
        [_] => write!(out, "{FORM}; UID is missing"),
        [_, uid, ..] if number_32(uid.bytes).is_none() => {
            explain_word(out, "client", Argument::Uid, *uid)
        }
        [_, _] => write!(out, "{FORM}; GID is missing"),
        [_, _, gid, ..] if number_32(gid.bytes).is_none() => {
            explain_word(out, "client", Argument::Gid, *gid)
        }
        [_, _, _, options @ ..] => explain_options(out, "client", options),
    }
}

/// Whether a word may be the name of a client.
fn is_name(word: &[u8]) -> bool {
    let is_name_byte = |byte: &u8| byte.is_ascii_lowercase() || byte.is_ascii_digit();
    word.first().is_some_and(|byte| byte.is_ascii_lowercase())
        && word.len() <= 16
        && word.iter().all(is_name_byte)
        && !matches!(word, b"client" | b"limit" | b"clock")
}

fn explain_name(out: &mut String, word: Word<'_>) -> Told {
    word.push_column(out)?;
    let (name, word) = (Quoted(word.bytes), word.bytes);
    write!(out, "client: NAME {name}: ")?;
    match word {
        b"client" | b"limit" | b"clock" => out.push_str("it begins a directive; take another"),
        _ if word.len() > 16 => out.push_str("a name has at most 16 letters and digits"),
        _ => out.push_str("a name is small letters and digits, 1 to 16, a letter first"),
    }
}

/// Appends what is wrong with the options behind the GID of a client line, or of a call that tells credentials.
pub(crate) fn explain_options(out: &mut String, line: &str, options: &[Word<'_>]) -> Told {
    let mut least = 0;
    for word in options {
        let Some(place) = OPTIONS
            .iter()
            .position(|option| word.bytes.starts_with(option.as_bytes()))
        else {
            return explain_no_option(out, line, *word);
        };
        if place < least {
            word.push_column(out)?;
            let option = Quoted(word.bytes);
            return write!(
                out,
                "{line}: {option}: the order is groups=, caps=, saved=, each at most once"
            );
        }
        let (_, text) = split_field(word.bytes, b'=');
        let text = text.unwrap_or(word.bytes);
        if !takes(place, text) {
            return explain_option(out, line, place, *word, text);
        }
        least = place.saturating_add(1);
    }
    write!(out, "{line}: {AFTER_GID}")
}

fn explain_no_option(out: &mut String, line: &str, word: Word<'_>) -> Told {
    if word.bytes.starts_with(b"#") {
        return explain_comment(out, word);
    }
    word.push_column(out)?;
    let shown = Quoted(word.bytes);
    write!(out, "{line}: {shown} is no option; {AFTER_GID}")
}

/// Whether the option at a place takes the text.
fn takes(place: usize, text: &[u8]) -> bool {
    match place {
        0 => are_numbers(text) && text.iter().filter(|byte| **byte == b',').count() < GROUPS_MAX,
        1 => bad_capability(text).is_none(),
        _ => {
            let (user, group) = split_field(text, b':');
            number_32(user).is_some() && group.is_some_and(|group| number_32(group).is_some())
        }
    }
}

/// The first field that is no capability.
fn bad_capability(text: &[u8]) -> Option<&[u8]> {
    text.split(|byte| *byte == b',')
        .find(|field| !is_one_of(field, CAPS))
}

fn explain_option(out: &mut String, line: &str, place: usize, word: Word<'_>, text: &[u8]) -> Told {
    word.push_column(out)?;
    let shown = Quoted(word.bytes);
    write!(out, "{line}: {shown}: ")?;
    match place {
        0 => explain_groups(out, text),
        1 => explain_capabilities(out, text),
        _ => out.push_str("saved= takes a user and a group, as saved=100:10"),
    }
}

fn explain_groups(out: &mut String, text: &[u8]) -> Told {
    match text {
        b"" => out.push_str("no group follows; write groups=10,20, or leave groups= out"),
        b"-" => out.push_str("a client without groups has no groups="),
        [.., b','] => out.push_str("no blank follows a comma; write groups=10,20"),
        _ if are_numbers(text) => out.push_str("a client has at most 32 groups"),
        _ => out.push_str("groups are numbers, separated by commas; write groups=10,20"),
    }
}

fn explain_capabilities(out: &mut String, text: &[u8]) -> Told {
    let field = bad_capability(text).unwrap_or(text);
    if field.is_empty() {
        return out.push_str(
            "names stand here, separated by commas without blanks, as caps=IPC_OWNER,SETUID",
        );
    }
    if field
        .iter()
        .any(|byte| matches!(*byte, b'|' | b'+' | b':' | b';'))
    {
        return out.push_str("commas separate capabilities, as caps=IPC_OWNER,SETUID");
    }
    let short = match field {
        [b'C' | b'c', b'A' | b'a', b'P' | b'p', b'_', short @ ..] => short,
        _ => field,
    };
    if let Some(name) = nearest(short, CAPS) {
        return write!(out, "write {name}");
    }
    let field = Quoted(field);
    write!(out, "{field} is no capability here; they are {CAPS}")
}
