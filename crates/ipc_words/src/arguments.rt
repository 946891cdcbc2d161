// The words of a text, where there are exactly so many.

ghost use Rattle.std.specs.Prelude.{◌≡◌, ◌≢◌, ◌<◌, [], ◌∷◌, length, MatchOption};
ghost use Rattle.ipc_words.specs.Words.{words_of};

use crate::words::split_word;

/// The word, where it is one.
pub fn one_word(words: &[u8]) -> Option<&[u8]>
    ensures { MatchOption result (length (words_of words.now) ≢ 1) (λ word. words_of words.now ≡ word.now ∷ []) }
{
    let (word, words) = split_word(words)?;
    if split_word(words).is_some() {
        return None;
    }
    Some(word)
}

/// The words, where they are two.
#[inline(always)]
pub fn two_words(words: &[u8]) -> Option<(&[u8], &[u8])>
    ensures { MatchOption result (length (words_of words.now) ≢ 2) (λ x. words_of words.now ≡ x.0.now ∷ x.1.now ∷ []) }
{
    let (first, words) = split_word(words)?;
    let second = one_word(words)?;
    Some((first, second))
}

/// The first two words, and what follows them.
pub fn first_two(words: &[u8]) -> Option<(&[u8], &[u8], &[u8])>
    ensures { MatchOption result (length (words_of words.now) < 2) (λ x. words_of words.now ≡ x.0.now ∷ x.1.now ∷ words_of x.2.now) }
{
    let (first, words) = split_word(words)?;
    let (second, others) = split_word(words)?;
    Some((first, second, others))
}

/// The words, where they are three.
pub fn three_words(words: &[u8]) -> Option<(&[u8], &[u8], &[u8])>
    ensures { MatchOption result (length (words_of words.now) ≢ 3) (λ x. words_of words.now ≡ x.0.now ∷ x.1.now ∷ x.2.now ∷ []) }
{
    let (first, words) = split_word(words)?;
    let (second, third) = two_words(words)?;
    Some((first, second, third))
}

/// The words, where they are four.
pub fn four_words(words: &[u8]) -> Option<(&[u8], &[u8], &[u8], &[u8])>
    ensures { MatchOption result (length (words_of words.now) ≢ 4) (λ x. words_of words.now ≡ x.0.now ∷ x.1.now ∷ x.2.now ∷ x.3.now ∷ []) }
{
    let (first, words) = split_word(words)?;
    let (second, third, fourth) = three_words(words)?;
    Some((first, second, third, fourth))
}
