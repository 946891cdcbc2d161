// The words of a line, and the fields of a word.

ghost use Rattle.std.specs.Prelude.{◌≡◌, ◌≢◌, [], ◌∷◌, ◌==◌, ◌≤◌, ◌<◌, not, MatchOption, IfSome, length, position};
ghost use Rattle.std.specs.List.{prefix_len};
ghost use Rattle.ipc_words.specs.Words.{fields_of, is_blank as blank_byte, is_plain as plain_text, words_of};

fn is_blank(byte: u8) -> bool
    ensures { result ≡ blank_byte byte }
{
    byte == b' ' || byte == b'\t'
}

// A tab, which is rare beside printing characters.
#[cold]
#[inline(never)]
fn is_tab(byte: u8) -> bool
    ensures { result ≡ (byte == 9) }
{
    byte == b'\t'
}

/// Whether each byte is a tab or a printing character of ASCII: 9, or 32 to 126.
pub fn is_plain(text: &[u8]) -> bool
    ensures { result ≡ plain_text text.now }
{
    text.iter()
        .all(|byte| (b' '..=b'~').contains(byte) || is_tab(*byte))
}

/// The first word, and what follows it; `None` where there is no word. Words are parted by blanks and tabs.
pub fn split_word(text: &[u8]) -> Option<(&[u8], &[u8])>
    ensures { MatchOption result (words_of text.now ≡ []) (λ x. words_of text.now ≡ x.0.now ∷ words_of x.1.now) }
{
    let (_, words) = text.split_at(blanks_before(text));
    if words.is_empty() {
        return None;
    }
    Some(words.split_at(word_len(words)))
}

// How many blanks come first.
fn blanks_before(text: &[u8]) -> usize
    ensures value { result ≡ prefix_len blank_byte text.now }
    ensures within { result ≤ length text.now }
{
    text.iter().take_while(|byte| is_blank(**byte)).count()
}

// How many bytes come before a blank.
fn word_len(text: &[u8]) -> usize
    ensures value { result ≡ prefix_len (λ b. not (blank_byte b)) text.now }
    ensures within { result ≤ length text.now }
{
    text.iter().take_while(|byte| !is_blank(**byte)).count()
}

/// The first field, and what follows its separator; `None` where no separator follows.
pub fn split_field(text: &[u8], separator: u8) -> (&[u8], Option<&[u8]>)
    ensures fields { MatchOption result.1 (fields_of separator text.now ≡ result.0.now ∷ []) (λ rest. fields_of separator text.now ≡ result.0.now ∷ fields_of separator rest.now) }
    ensures shorter { IfSome result.1 (λ rest. length rest.now < length text.now) }
{
    match separator_place(text, separator) {
        None => (text, None),
        Some(place) => (&text[..place], Some(&text[place + 1..])),
    }
}

fn separator_place(text: &[u8], separator: u8) -> Option<usize>
    ensures place { result ≡ position (λ b. b == separator) text.now }
    ensures within { IfSome result (λ place. place < length text.now) }
{
    text.iter().position(|byte| *byte == separator)
}
