// The calls that the words of a command make.

ghost use Rattle.std.specs.Prelude.{◌≡◌, IfOk, map, option_map};
ghost use Rattle.clap.specs.Words.{found_of, rows_of};
ghost use Rattle.ipc_words.specs.Words.{words_of};
ghost use Rattle.ipc_commands.specs.Commands.{arguments_of, command_parts, parts_by};

use crate::options::matches;
use crate::requests::Request;
use crate::tools::Tool;
use clap::ArgMatches;
use ipc_call::{Call, Items, Kind};
use ipc_words::{is_plain, split_word};
use std::alloc::{AllocError, Global};

/// One of the calls that a command makes.
#[derive(Debug, Drop, PartialEq)]
pub enum Part {
    /// The call as it stands.
    Plain(Call),
    /// The removal of the object of a kind that has this key, which isn't 0.
    RemoveByKey(Kind, u32),
}

/// The calls that the words behind a command's name make, in the order of the options in its man page; `None` where
/// they make none. `AllocError` comes where memory was refused.
pub fn parts_of(alloc: Global, tool: Tool, words: &[u8]) -> Result<Option<Items<Part>>, AllocError>
    ensures { IfOk result (λ parts. parts ≡ command_parts tool (words_of words.now)) }
{
    let Some(words) = arguments(alloc, tool.name(), words)? else {
        return Ok(None);
    };
    let Some(matches) = matches(tool.command(alloc)?, words.as_slice())? else {
        return Ok(None);
    };
    let Some(parts) = requested(alloc, &matches, tool.requests())? else {
        return Ok(None);
    };
    if parts.is_empty() {
        return Ok(None);
    }
    Ok(Some(Items::new(parts)))
}

// A command's name and the words behind it; None where a word isn't plain.
fn arguments<'a>(
    alloc: Global,
    name: &'a str,
    words: &'a [u8],
) -> Result<Option<Vec<&'a str>>, AllocError>
    ensures { IfOk result (λ texts. option_map (λ x. map (λ text. text.now) x.items) texts ≡ arguments_of name.now (words_of words.now)) }
{
    let mut texts = Vec::new(alloc);
    texts.push(name)?;
    let mut rest = words;
    while let Some((word, others)) = split_word(rest) {
        if !is_plain(word) {
            return Ok(None);
        }
        texts.push(str::from_utf8(word).unwrap())?;
        rest = others;
    }
    Ok(Some(texts))
}

// The parts that options ask for.
#[tactic(auto, using(std::proofs::lemmas::List::at_drop_more, std::proofs::lemmas::List::at_drop_all))]
fn requested(
    alloc: Global,
    matches: &ArgMatches<'_>,
    requests: &[Request],
) -> Result<Option<Vec<Part>>, AllocError>
    ensures { IfOk result (λ parts. option_map (λ x. x.items) parts ≡ parts_by (rows_of (found_of matches.now)) requests.now) }
{
    let mut parts = Vec::new(alloc);
    for request in requests {
        let Some(part) = request.part(matches) else {
            return Ok(None);
        };
        if let Some(part) = part {
            parts.push(part)?;
        }
    }
    Ok(Some(parts))
}
