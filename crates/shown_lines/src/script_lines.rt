//! A line of a script with its flags by name.

ghost use Rattle.std.specs.Prelude.{◌≡◌, [], ◌++◌, ◌∷◌, OnOk, IfOk, drop, length, take};
ghost use Rattle.ipc_words.specs.Numbers.{number_32 as number_32_word};
ghost use Rattle.ipc_words.specs.Words.{fields_of, words_of};
ghost use Rattle.shown_lines.specs.ScriptLines.{arguments_text, form_of as form_of_call, line_text, named, operation_of, word_text, words_text};

use crate::flags::{Flag, print_flags};
use ipc_words::{number_16, number_32, split_field, split_word};
use std::alloc::AllocError;

/// How a word is written.
#[derive(Clone, Copy, Debug, PartialEq, Eq)]
pub(crate) enum Sort {
    /// As it stands.
    Plain,
    /// As the flags of a get.
    Get,
    /// As those of msgsnd.
    Send,
    /// As those of msgrcv.
    Receive,
    /// As those of shmat.
    Attach,
    /// As an operation of semop.
    Operation,
}

/// How many words stand behind the name of a call before its flags or its operations, and which these are.
#[derive(Clone, Copy, Debug)]
struct Form {
    before: usize,
    sort: Sort,
}

/// Appends a line of a client and its call, with one blank between its words, and its flags by their names.
pub fn print_line(out: &mut Vec<u8>, text: &[u8]) -> Result<(), AllocError>
    ensures { OnOk result (out.new.items ≡ out.old.items ++ line_text text.now) }
{
    let Some((client, rest)) = split_word(text) else {
        return Ok(());
    };
    out.extend_from_slice(client)?;
    let Some((call, words)) = split_word(rest) else {
        return Ok(());
    };
    out.extend_from_slice(b" ")?;
    out.extend_from_slice(call)?;
    print_arguments(out, form_of(call), words)
}

fn print_arguments(out: &mut Vec<u8>, form: Form, text: &[u8]) -> Result<(), AllocError>
    ensures { OnOk result (out.new.items ≡ out.old.items ++ arguments_text (record { before = form.before; sort = form.sort }) (words_of text.now)) }
{
    let rest = print_first(out, form.before, text)?;
    print_words(out, form.sort, rest)
}

/// Appends the first words as they stand, and gives what follows them.
fn print_first<'t>(out: &mut Vec<u8>, count: usize, text: &'t [u8]) -> Result<&'t [u8], AllocError>
    ensures text { OnOk result (out.new.items ≡ out.old.items ++ words_text Sort.Plain (take count (words_of text.now))) }
    ensures rest { IfOk result (λ rest. words_of rest.now ≡ drop count (words_of text.now)) }
{
    let mut left = count;
    let mut rest = text;
    while left > 0 {
        let Some((word, others)) = split_word(rest) else {
            return Ok(rest);
        };
        out.extend_from_slice(b" ")?;
        out.extend_from_slice(word)?;
        rest = others;
        left -= 1;
    }
    Ok(rest)
}

/// Appends the words, each of this sort.
fn print_words(out: &mut Vec<u8>, sort: Sort, text: &[u8]) -> Result<(), AllocError>
    ensures { OnOk result (out.new.items ≡ out.old.items ++ words_text sort (words_of text.now)) }
{
    let mut rest = text;
    while let Some((word, others)) = split_word(rest) {
        out.extend_from_slice(b" ")?;
        print_word(out, sort, word)?;
        rest = others;
    }
    Ok(())
}

fn print_word(out: &mut Vec<u8>, sort: Sort, word: &[u8]) -> Result<(), AllocError>
    ensures { OnOk result (out.new.items ≡ out.old.items ++ word_text sort word.now) }
{
    match sort {
        Sort::Plain => out.extend_from_slice(word),
        Sort::Get => print_named(out, &[Flag::Creat, Flag::Excl], word),
        Sort::Send => print_named(out, &[Flag::NoWait], word),
        Sort::Receive => print_named(out, &[Flag::NoWait, Flag::NoError, Flag::Except], word),
        Sort::Attach => print_named(out, &[Flag::ReadOnly], word),
        Sort::Operation => print_operation(out, word),
    }
}

/// Appends the flags that a word writes as a number.
fn print_named(out: &mut Vec<u8>, names: &[Flag], word: &[u8]) -> Result<(), AllocError>
    ensures { OnOk result (out.new.items ≡ out.old.items ++ named names.now word.now (number_32_word word.now)) }
{
    match number_32(word) {
        Some(flags) => print_flags(out, names, flags),
        None => out.extend_from_slice(word),
    }
}

/// Appends an operation, its flags behind the second colon.
fn print_operation(out: &mut Vec<u8>, word: &[u8]) -> Result<(), AllocError>
    ensures { OnOk result (out.new.items ≡ out.old.items ++ operation_of word.now (fields_of 58 word.now)) }
{
    let (num, Some(rest)) = split_field(word, b':') else {
        return out.extend_from_slice(word);
    };
    let (op, Some(flags)) = split_field(rest, b':') else {
        return out.extend_from_slice(word);
    };
    match split_field(flags, b':') {
        (last, None) => print_fields(out, num, op, last),
        (_, Some(_)) => out.extend_from_slice(word),
    }
}

/// Appends the three fields of an operation.
fn print_fields(out: &mut Vec<u8>, num: &[u8], op: &[u8], flags: &[u8]) -> Result<(), AllocError>
    ensures { OnOk result (out.new.items ≡ out.old.items ++ operation_of [] (num.now ∷ op.now ∷ flags.now ∷ [])) }
{
    out.extend_from_slice(num)?;
    out.extend_from_slice(b":")?;
    out.extend_from_slice(op)?;
    out.extend_from_slice(b":")?;
    match number_16(flags) {
        Some(bits) => print_flags(out, &[Flag::NoWait, Flag::Undo], u32::from(bits)),
        None => out.extend_from_slice(flags),
    }
}

#[tactic(auto, unfolding(crate::specs::ScriptLines::form_of))]
fn form_of(call: &[u8]) -> Form
    ensures { record { before = result.before; sort = result.sort } ≡ form_of_call call.now }
{
    if call == b"msgget".as_slice() {
        arguments_of(1, Sort::Get)
    } else if call == b"semget".as_slice() {
        arguments_of(2, Sort::Get)
    } else if call == b"shmget".as_slice() {
        arguments_of(2, Sort::Get)
    } else if call == b"msgsnd".as_slice() {
        arguments_of(3, Sort::Send)
    } else if call == b"msgrcv".as_slice() {
        arguments_of(3, Sort::Receive)
    } else if call == b"shmat".as_slice() {
        arguments_of(1, Sort::Attach)
    } else if call == b"semop".as_slice() {
        arguments_of(1, Sort::Operation)
    } else if call == b"semtimedop".as_slice() {
        arguments_of(2, Sort::Operation)
    } else {
        arguments_of(0, Sort::Plain)
    }
}

fn arguments_of(before: usize, sort: Sort) -> Form
    ensures before { result.before ≡ before }
    ensures sort { result.sort ≡ sort }
{
    Form { before, sort }
}
