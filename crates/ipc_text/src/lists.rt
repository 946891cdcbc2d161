// Lists of words, and of numbers in one word.

ghost use Rattle.std.specs.Prelude.{◌≡◌, IfOk, option_map};
ghost use Rattle.ipc_text.specs.Grammar.{each_of, number_list as number_words, two_numbers as both_numbers};
ghost use Rattle.ipc_words.specs.Numbers.{number_32 as word_32, signed_32 as signed_word_32};
ghost use Rattle.ipc_words.specs.Words.{words_of};

use ipc_call::Items;
use ipc_words::{number_32, signed_32, split_field, split_word};
use std::alloc::{AllocError, Global};

/// The numbers that two words write; None where one of them writes none that 32 bits hold.
pub fn two_numbers(first: &[u8], second: &[u8]) -> Option<(u32, u32)>
    ensures { result ≡ both_numbers first.now second.now }
{
    let first = number_32(first)?;
    let second = number_32(second)?;
    Some((first, second))
}

/// What one word of a list writes.
pub trait Item: Copy {
    ghost use Rattle.std.specs.Prelude.{ℕ, List, Option};

    ghost item_of: { List ℕ → Option Self };

    /// What the word writes; None where it writes none.
    fn from_word(word: &[u8]) -> Option<Self>
        ensures { result ≡ item_of word.now };
}

impl Item for i32 {
    ghost item_of = { signed_word_32 };

    fn from_word(word: &[u8]) -> Option<i32> {
        signed_32(word)
    }
}

impl Item for u32 {
    ghost item_of = { word_32 };

    fn from_word(word: &[u8]) -> Option<u32> {
        number_32(word)
    }
}

/// What each of the words writes; None where one of them writes none. `AllocError` comes only where a growth
/// was refused.
pub fn items_of<T: Item>(alloc: Global, words: &[u8]) -> Result<Option<Items<T>>, AllocError>
    ensures { IfOk result (λ items. items ≡ each_of T.item_of (words_of words.now)) }
{
    let mut items = Vec::new(alloc);
    let mut rest = words;
    while let Some((word, others)) = split_word(rest) {
        let Some(item) = T::from_word(word) else {
            return Ok(None);
        };
        items.push(item)?;
        rest = others;
    }
    Ok(Some(Items::new(items)))
}

/// The numbers that commas separate in the text; None where one of them isn't a number. `AllocError` comes only where a
/// growth was refused.
#[tactic(auto, unfolding(crate::specs::Grammar::number_list))]
pub(crate) fn number_list(alloc: Global, text: &[u8]) -> Result<Option<Vec<u32>>, AllocError>
    ensures { IfOk result (λ numbers. option_map (λ x. x.items) numbers ≡ number_words text.now) }
{
    let mut numbers = Vec::new(alloc);
    let mut rest = Some(text);
    while let Some(text) = rest {
        let (field, others) = split_field(text, b',');
        let Some(number) = number_32(field) else {
            return Ok(None);
        };
        numbers.push(number)?;
        rest = others;
    }
    Ok(Some(numbers))
}
