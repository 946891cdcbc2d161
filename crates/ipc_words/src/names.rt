// Names of clients.

ghost use Rattle.std.specs.Prelude.{◌≡◌, IfOk, IsTrue, bytes_eq};
ghost use Rattle.std.specs.List.{list_all};
ghost use Rattle.ipc_words.specs.Names.{is_directive as names_directive, is_name as names_client, is_name_byte, name_of};

use std::alloc::{AllocError, Global};
use std::marker::Model;

/// The longest name, in letters and digits.
const LONGEST: usize = 16;

/// The name of a client: 1 to 16 of `a` to `z` and `0` to `9`, beginning with a letter, and no directive.
#[derive(Debug, Drop)]
pub struct Name {
    text: String,
}

impl Model for Name {
    ghost use Rattle.std.specs.Prelude.{ℕ, List, IsTrue, string_bytes};
    ghost use Rattle.ipc_words.specs.Names.{is_name as names_client};

    ghost Value = { List ℕ };

    ghost view = { λ n. string_bytes n.text };

    ghost invariant = { λ n. IsTrue (names_client (string_bytes n.text)) };
}

impl Name {
    /// The name that the word is, where it is one. Memory comes only where a growth was refused.
    pub fn from_word(alloc: Global, word: &[u8]) -> Result<Option<Name>, AllocError>
        ensures { IfOk result (λ name. name ≡ name_of word.now) }
    {
        if !is_name(word) {
            return Ok(None);
        }
        let text = str::from_utf8(word).unwrap();
        Ok(Some(Name {
            text: String::from_str(alloc, text)?,
        }))
    }

    /// Whether the word is this name.
    pub fn is(&self, word: &[u8]) -> bool
        ensures { result ≡ bytes_eq self.now word.now }
    {
        is_same(self.text.as_bytes(), word)
    }

    /// The name as text.
    pub fn as_str(&self) -> &str
        ensures text { result.now ≡ self.now }
        ensures name { IsTrue (names_client result.now) }
    {
        self.text.as_str()
    }
}

/// Whether the word has the form of a client's name.
#[tactic(auto, unfolding(crate::specs::Names::is_name))]
pub fn is_name(word: &[u8]) -> bool
    ensures { result ≡ names_client word.now }
{
    let Some((first, rest)) = word.split_first() else {
        return false;
    };
    word.len() <= LONGEST
        && first.is_ascii_lowercase()
        && are_name_bytes(rest)
        && !is_directive(word)
}

// Whether the bytes are the same, in few instructions where there are few.
fn is_same(a: &[u8], b: &[u8]) -> bool
    ensures { result ≡ bytes_eq a.now b.now }
{
    match (a, b) {
        ([], []) => true,
        ([first, a @ ..], [byte, b @ ..]) => first == byte && is_same(a, b),
        _ => false,
    }
}

fn are_name_bytes(bytes: &[u8]) -> bool
    ensures { result ≡ list_all is_name_byte bytes.now }
{
    let is_name_byte = |byte: &u8| byte.is_ascii_lowercase() || byte.is_ascii_digit();
    bytes.iter().all(is_name_byte)
}

fn is_directive(word: &[u8]) -> bool
    ensures { result ≡ names_directive word.now }
{
    word == b"client".as_slice() || word == b"limit".as_slice() || word == b"clock".as_slice()
}
