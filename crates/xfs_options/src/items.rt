//! The items of the lists that options take.

ghost use Rattle.std.specs.Prelude.{◌≡◌, ◌++◌, ◌==◌, [], length, not, drop, IfOk};
ghost use Rattle.std.specs.List.{list_any};
ghost use Rattle.std.specs.Option.{option_copied};
ghost use Rattle.xfs_options.specs.SubOptions.{first_bad, fits, item_form, is_fine, is_fine_as, is_list_letter, items_from, items_in, items_given, new_item, opposes, given_text};

use crate::reading::Given;
use crate::sub_options::SubOption;
use std::alloc::Global;
use xfs_disk::{NoMemory, Word};

/// An item of a list.
#[derive(Drop)]
pub(crate) struct OptionItem {
    /// The letter of the option.
    pub option: u8,
    /// The number of the word in which it stands.
    pub word: usize,
    /// Its number in the word, from 1.
    pub number: usize,
    pub text: Word,
}

/// The items of all options.
pub(crate) fn items_given(alloc: Global, given: &[Given]) -> Result<Vec<OptionItem>, NoMemory>
    ensures { IfOk result (λ items. items.items ≡ items_given given.now) }
{
    let mut items = Vec::new(alloc);
    for option in given {
        push_items(alloc, &mut items, option)?;
    }
    Ok(items)
}

/// Whether an option takes a list.
fn is_list_letter(letter: u8) -> bool
    ensures { result ≡ is_list_letter letter }
{
    matches!(letter, b'd' | b'l' | b'm' | b'i' | b's' | b'b' | b'n')
}

/// Adds the items of an option, where it takes a list.
fn push_items(alloc: Global, items: &mut Vec<OptionItem>, given: &Given) -> Result<(), NoMemory>
    ensures { IfOk result (λ _. items.new.items ≡ items.old.items ++ items_in given.now) }
{
    if is_list_letter(given.letter) {
        push_parts(alloc, items, given, given.value.bytes())?;
    }
    Ok(())
}

/// Adds what stands between commas as items of an option.
fn push_parts(
    alloc: Global,
    items: &mut Vec<OptionItem>,
    given: &Given,
    bytes: &[u8],
) -> Result<(), NoMemory>
    ensures { IfOk result (λ _. items.new.items ≡ items.old.items ++ items_from given.now 1 [] bytes.now) }
{
    let mut number = 1;
    let mut text = Vec::new(alloc);
    for byte in bytes {
        if *byte == b',' {
            items.push(new_item(given, number, text))?;
            number += 1;
            text = Vec::new(alloc);
        } else {
            text.push(*byte)?;
        }
    }
    items.push(new_item(given, number, text))?;
    Ok(())
}

/// An item of an option.
fn new_item(given: &Given, number: usize, text: Vec<u8>) -> OptionItem
    ensures { result ≡ new_item given.now number text.items }
{
    OptionItem {
        option: given.letter,
        word: given.word,
        number,
        text: Word::from_vec(text),
    }
}

/// The first of the items that can't stand behind those before it.
#[tactic(auto, using(crate::proofs::Bad::fine_next, crate::proofs::Bad::bad_here))]
pub(crate) fn first_bad(items: &[OptionItem]) -> Option<&OptionItem>
    ensures { option_copied result ≡ first_bad [] items.now }
{
    for (at, item) in items.iter().enumerate() {
        if !is_fine(&items[..at], item) {
            return Some(item);
        }
    }
    None
}

/// Whether an item can stand behind these.
fn is_fine(before: &[OptionItem], item: &OptionItem) -> bool
    ensures { result ≡ is_fine before.now item.now }
{
    match SubOption::of(item) {
        None => false,
        Some(sub) => sub.form().fits(given_text(sub, item)) && !is_opposed(sub, before),
    }
}

/// What stands behind the text of the sub-option that an item gives.
pub(crate) fn given_text(sub: SubOption, item: &OptionItem) -> &[u8]
    ensures { result.now ≡ given_text sub item.now }
{
    let text = item.text.bytes();
    let size = sub.text().len();
    if text.len() < size {
        &[]
    } else {
        &text[size..]
    }
}

/// Whether one of these items gives the sub-option or the one that can't stand beside it.
fn is_opposed(sub: SubOption, items: &[OptionItem]) -> bool
    ensures { result ≡ list_any (opposes sub) items.now }
{
    items.iter().any(|item| opposes(sub, item))
}

/// Whether an item gives the sub-option or the one that can't stand beside it.
fn opposes(sub: SubOption, item: &OptionItem) -> bool
    ensures { result ≡ opposes sub item.now }
{
    sub.is_given(item) || sub.rival().is_given(item)
}
