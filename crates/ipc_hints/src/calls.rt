// Lines of a client that make no call.

use crate::clients::explain_options;
use ipc_arguments::{
    Argument, CALLS, Form, Quoted, Told, Word, explain_comment, explain_word, form_of, nearest,
};
use std::fmt::Write;

/// Appends what is wrong with the words after the name of a client.
pub(crate) fn explain_call(out: &mut String, words: &[Word<'_>]) -> Told {
    let Some((call, arguments)) = words.split_first() else {
        return out.push_str("a call follows the client's name, as in alice msgget 5 01600");
    };
    match form_of(call.bytes) {
        Some(form) => explain_arguments(out, form, arguments),
        None => explain_no_call(out, *call),
    }
}

fn explain_arguments(out: &mut String, form: Form, words: &[Word<'_>]) -> Told {
    for (index, word) in words.iter().enumerate() {
        let Some(argument) = form.argument_at(index) else {
            return explain_more(out, form, *word);
        };
        if argument == Argument::Creds {
            let options = words.get(index..).unwrap_or_default();
            return explain_options(out, form.call, options);
        }
        if !argument.takes(word.bytes) {
            if words.len() > form.takes.len() && form.takes.last() == Some(&argument) {
                return explain_parts(out, form, words, *word);
            }
            return explain_word(out, form.call, argument, *word);
        }
    }
    match form.takes.get(words.len()) {
        Some(argument) => {
            let name = argument.name();
            write!(out, "{form}; {name} is missing")
        }
        None => write!(out, "{form}"),
    }
}

fn explain_more(out: &mut String, form: Form, word: Word<'_>) -> Told {
    if word.bytes.starts_with(b"#") {
        return explain_comment(out, word);
    }
    word.push_column(out)?;
    let shown = Quoted(word.bytes);
    write!(out, "{form}; {shown} is an argument too many")
}

/// Appends what is wrong where the last argument is bad and others follow it: blanks may have cut flags or a text.
fn explain_parts(out: &mut String, form: Form, words: &[Word<'_>], word: Word<'_>) -> Told {
    let shown = Quoted(word.bytes);
    if word.bytes.starts_with(b"#") {
        explain_comment(out, word)
    } else if words.iter().any(|word| word.bytes == b"|".as_slice()) {
        word.push_column(out)?;
        write!(
            out,
            "{form}; from {shown} on write one number, as 01600 for IPC_CREAT | 0600"
        )
    } else if form.takes.contains(&Argument::Text) {
        word.push_column(out)?;
        write!(
            out,
            "{form}; before {shown} stands a blank, which x: writes as 20 and t: can't"
        )
    } else {
        explain_more(out, form, word)
    }
}

/// What to write for a word of C or of a shell.
fn other_name(call: &[u8]) -> Option<&'static str> {
    match call {
        b"msgctl" | b"shmctl" | b"ctl" => Some("its commands are calls: stat, set, rmid"),
        b"semctl" => Some(
            "its commands are calls: stat, set, rmid, getval, setval, getall, setall, getpid, getncnt, getzcnt",
        ),
        b"get" => Some("there are msgget, semget and shmget"),
        b"send" | b"msgsend" => Some("a message is sent by msgsnd"),
        b"recv" | b"receive" | b"msgrecv" => Some("a message is received by msgrcv"),
        b"rm" | b"remove" | b"delete" | b"IPC_RMID" => Some("an object is removed by rmid"),
        b"IPC_STAT" => Some("write stat"),
        b"IPC_SET" | b"chmod" | b"chown" => Some("owner, group and mode are changed by set"),
        b"GETVAL" | b"SETVAL" | b"GETALL" | b"SETALL" | b"GETPID" | b"GETNCNT" | b"GETZCNT" => {
            Some("write it in small letters")
        }
        b"signal" => Some("a waiting call is ended by interrupt PID, a process by kill PID"),
        b"sleep" | b"wait" | b"alarm" => Some("the time is told by a line clock NUMBER"),
        b"seteuid" | b"setegid" | b"setuid" | b"setgid" | b"setgroups" | b"su" | b"sudo" => {
            Some("a client takes on another user by setcreds")
        }
        b"vfork" | b"spawn" | b"execve" | b"pthread_create" => Some(
            "a process begins by fork or begin, a thread by clone, and exec is exec",
        ),
        b"quit" | b"_exit" | b"end" => Some("write exit"),
        b"ftok" => Some("a key is any number, as 5 or 0x1234"),
        b"read" | b"write" | b"memcpy" => Some(
            "bytes of a segment are read by shmread and written by shmwrite",
        ),
        b"ls" | b"list" => Some("objects are listed by ipcs"),
        b"client" | b"limit" | b"clock" => Some("a directive stands at the beginning of its line"),
        _ => None,
    }
}

fn explain_no_call(out: &mut String, word: Word<'_>) -> Told {
    let call = word.bytes;
    if call.starts_with(b"#") {
        return explain_comment(out, word);
    }
    word.push_column(out)?;
    let shown = Quoted(call);
    write!(out, "{shown} is no call; ")?;
    if let Some(text) = other_name(call) {
        return out.push_str(text);
    }
    match nearest(call, CALLS) {
        Some(name) => write!(out, "did you mean {name}?"),
        None => out.push_str("docs/LANGUAGE.md has the calls on one screen"),
    }
}
