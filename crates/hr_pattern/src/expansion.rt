//! An expanded form of a pattern, written from the pattern's text by the form's number.
ghost use Rattle.std.specs.Prelude.{◌≡◌, ◌<◌, ◌≤◌, ◌↔◌, ◌++◌, ◌%◌, ◌/◌, [], None, Any, IsTrue, length, slice_index_or};
ghost use Rattle.hr_pattern.specs.Choice.{behind_first, first_choices, form_at, reading_from};
ghost use Rattle.hr_pattern.specs.Form.{fault_of, forms_of, reading_of, FormCovers};

use crate::item::Item;
use crate::path::covers;
use crate::pattern::LIMIT;
use crate::sign::{Sign, sign_at};
use arrayvec::ArrayVec;

/// The items of one expanded form. They lie in the value itself.
pub type Form = ArrayVec<Item, LIMIT>;

/// Whether one of the expanded forms of a pattern, of which there are so many, covers a text.
pub fn some_covers(pattern: &[u8], forms: usize, text: &[u8]) -> bool
    requires sound { fault_of pattern.now ≡ None }
    requires forms { forms ≡ length (forms_of pattern.now) }
    ensures { IsTrue result ↔ Any (FormCovers text.now) (forms_of pattern.now) }
{
    let mut form = Form::new();
    for number in 0..forms {
        form.clear();
        expand(pattern, number, &mut form);
        if covers(form.as_slice(), text) {
            return true;
        }
    }
    false
}

/// Writes the expanded form of this number into an empty form. It reads the text once.
pub fn expand(text: &[u8], number: usize, form: &mut Form)
    requires sound { fault_of text.now ≡ None }
    requires empty { form.old.items ≡ [] }
    ensures { form.new.items ≡ form_at number (reading_of text.now).parts }
{
    let mut at = 0;
    let mut left = number;
    while at < text.len() {
        let choices = count_choices(text, at);
        let (choice, rest) = divided(left, choices);
        at = push_choice(text, at, choice, form);
        left = rest;
    }
}

// The remainder and the quotient of a number. Most parts have one alternative: no division is
// made for them, since it would take longer than all else.
fn divided(number: usize, by: usize) -> (usize, usize)
    requires { 0 < by }
    ensures { result ≡ (number % by, number / by) }
{
    if by == 1 {
        return (0, number);
    }
    (number % by, number / by)
}

// How many alternatives the part has that begins at a place.
fn count_choices(text: &[u8], at: usize) -> usize
    requires within { at < length text.now }
    requires sound { (reading_from text.now at).fault ≡ None }
    ensures count { result ≡ length (first_choices (reading_from text.now at).parts) }
    ensures some { 0 < result }
{
    let (sign, mut place) = sign_at(text, at);
    match sign {
        Sign::Stands(_) | Sign::Comma => return 1,
        Sign::Open => {}
        Sign::Close | Sign::Wrong(_) => unreachable!(),
    }
    let mut count = 1;
    while place < text.len() {
        let (sign, behind) = sign_at(text, place);
        place = behind;
        match sign {
            Sign::Stands(_) => {}
            Sign::Comma => count += 1,
            Sign::Close => return count,
            Sign::Open | Sign::Wrong(_) => unreachable!(),
        }
    }
    unreachable!()
}

// Puts one alternative of the part that begins at a place behind a form, and answers the place
// behind the part.
fn push_choice(text: &[u8], at: usize, choice: usize, form: &mut Form) -> usize
    requires within { at < length text.now }
    requires short { length text.now ≤ LIMIT }
    requires sound { (reading_from text.now at).fault ≡ None }
    requires choice { choice < length (first_choices (reading_from text.now at).parts) }
    requires room { length form.old.items ≤ at }
    ensures pushed { form.new.items ≡ form.old.items
        ++ slice_index_or (first_choices (reading_from text.now at).parts) choice [] }
    ensures rest { reading_from text.now result ≡ behind_first (reading_from text.now at) }
    ensures later { at < result }
    ensures end { result ≤ length text.now }
    ensures room { length form.new.items ≤ result }
{
    let (sign, mut place) = sign_at(text, at);
    match sign {
        Sign::Stands(item) => {
            form.push(item);
            return place;
        }
        Sign::Comma => {
            form.push(Item::Byte(b','));
            return place;
        }
        Sign::Open => {}
        Sign::Close | Sign::Wrong(_) => unreachable!(),
    }
    let mut met = 0;
    while place < text.len() {
        let (sign, behind) = sign_at(text, place);
        place = behind;
        match sign {
            Sign::Stands(item) => {
                if met == choice {
                    form.push(item);
                }
            }
            Sign::Comma => met += 1,
            Sign::Close => return place,
            Sign::Open | Sign::Wrong(_) => unreachable!(),
        }
    }
    unreachable!()
}
