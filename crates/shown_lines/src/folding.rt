//! Texts that are folded.

ghost use Rattle.std.specs.Prelude.{◌≡◌, ◌++◌, IfOk, OnOk, ℕ};
ghost use Rattle.ipc_words.specs.Words.{words_of};
ghost use Rattle.shown_lines.specs.Folding.{AreShort, behind, folded, folded_all, lines_text, next_text, next_used};

use ipc_words::{split_line, split_word};
use std::alloc::AllocError;

/// Appends the whole lines of a text, folded to lines of at most `width` bytes: a word for which there is no room begins the next
/// line, behind two blanks. Blanks between words become one. A word that is longer than a line isn't cut.
pub fn fold(out: &mut Vec<u8>, text: &[u8], width: usize) -> Result<(), AllocError>
    ensures { OnOk result (out.new.items ≡ out.old.items ++ lines_text (folded_all width text.now)) }
{
    let mut rest = text;
    while let Some((line, others)) = split_line(rest) {
        fold_line(out, line, width)?;
        rest = others;
    }
    Ok(())
}

/// The same of one line, without its line feed.
pub fn fold_line(out: &mut Vec<u8>, line: &[u8], width: usize) -> Result<(), AllocError>
    ensures text { OnOk result (out.new.items ≡ out.old.items ++ lines_text (folded width line.now)) }
    ensures short { (most : ℕ) → AreShort width most line.now }
{
    if let Some((word, words)) = split_word(line) {
        out.extend_from_slice(word)?;
        print_behind(out, word.len(), words, width)?;
    }
    out.extend_from_slice(b"\n")
}

/// Appends the words behind what stands on a line, which has `used` bytes.
fn print_behind(
    out: &mut Vec<u8>,
    used: usize,
    words: &[u8],
    width: usize,
) -> Result<(), AllocError>
    ensures { OnOk result (out.new.items ≡ out.old.items ++ behind width used (words_of words.now)) }
{
    let mut used = used;
    let mut rest = words;
    while let Some((word, others)) = split_word(rest) {
        used = print_next(out, used, word, width)?;
        rest = others;
    }
    Ok(())
}

/// Appends a word behind what stands on a line, which has `used` bytes, and gives how many the line of the word has.
fn print_next(
    out: &mut Vec<u8>,
    used: usize,
    word: &[u8],
    width: usize,
) -> Result<usize, AllocError>
    ensures text { OnOk result (out.new.items ≡ out.old.items ++ next_text width used word.now) }
    ensures used { IfOk result (λ new. new ≡ next_used width used word.now) }
{
    let len = word.len();
    let has_room = len < width && used < width - len;
    out.extend_from_slice(if has_room {
        b" ".as_slice()
    } else {
        b"\n  ".as_slice()
    })?;
    out.extend_from_slice(word)?;
    Ok(if has_room { used + 1 + len } else { len + 2 })
}
