//! What the text of one field of a schedule stands for. (Our own, after the fields of cron.)
ghost use Rattle.std.specs.Prelude.{◌≡◌, ◌+◌, ◌<◌, ◌≤◌, ◌||◌, ℕ, List, ◌∷◌, true, false, length, option_copied, IfSome, IfOk, MatchResult};
ghost use Rattle.hr_periodic.specs.declared.field.Field.{Field};
ghost use Rattle.hr_periodic.specs.declared.reading.Limits.{Limits};
ghost use Rattle.hr_text.specs.Cutting.{pieces_left, split_at_byte};
ghost use Rattle.hr_periodic.specs.Field.{holds};
ghost use Rattle.hr_periodic.specs.Item.{digit_of, number_of, number_in, ends_of, is_star, stepped, item_of, in_stretch};
ghost use Rattle.hr_periodic.specs.Reading.{space, comma, are_items, have, is_any, is_field, IsField, AreFields, first_fault};

use crate::cron::CronRefused;
use crate::field::{Field, NUMBERS};
use hr_text::cut;

/// The least and the greatest number of a field.
#[derive(Clone, Copy)]
pub(crate) struct Limits {
    pub(crate) low: u8,
    pub(crate) high: u8,
}

/// The numbers from one to another by steps.
#[derive(Clone, Copy)]
pub(crate) struct Stretch {
    from: u8,
    to: u8,
    step: u8,
}

impl Stretch {
    // Whether the number is one of them.
    fn contains(self, number: u8) -> bool
        requires { 0 < self.step }
        ensures { result ≡ in_stretch self number }
    {
        self.from <= number && number <= self.to && (number - self.from) % self.step == 0
    }

    // The numbers that are there already, and those of the stretch.
    fn mark(self, numbers: u64) -> u64
        requires step { 0 < self.step }
        requires to { self.to < NUMBERS }
        ensures { (k : ℕ) → holds result k ≡ (holds numbers k || in_stretch self k) }
    {
        let mut marked = numbers;
        for number in 0..NUMBERS {
            if self.contains(number) {
                marked |= 1 << number;
            }
        }
        marked
    }
}

// The number that a decimal digit writes.
fn digit(byte: u8) -> Option<u8>
    ensures value { result ≡ digit_of byte }
    ensures bound { IfSome result (λ digit. digit < 10) }
{
    if byte.is_ascii_digit() {
        Some(byte - b'0')
    } else {
        None
    }
}

// One or two decimal digits.
fn number(text: &[u8]) -> Option<u8>
    ensures { result ≡ number_of text.now }
{
    match text {
        [a] => digit(*a),
        [a, b] => {
            let tens = digit(*a)?;
            let ones = digit(*b)?;
            Some(10 * tens + ones)
        }
        _ => None,
    }
}

impl Limits {
    // Such a number within the limits.
    fn number(self, text: &[u8]) -> Option<u8>
        ensures value { result ≡ number_in self text.now }
        ensures within { IfSome result (λ number. number ≤ self.high) }
    {
        let number = number(text)?;
        if self.low <= number && number <= self.high {
            Some(number)
        } else {
            None
        }
    }

    // The numbers of `A` or `A-B`.
    fn ends(self, text: &[u8]) -> Option<(u8, Option<u8>)>
        ensures value { result ≡ ends_of self text.now }
        ensures from { IfSome result (λ ends. ends.0 ≤ self.high) }
        ensures to { IfSome result (λ ends. IfSome ends.1 (λ to. to ≤ self.high)) }
    {
        let (a, b) = cut(text, b'-');
        let from = self.number(a)?;
        let Some(b) = b else {
            return Some((from, None));
        };
        let to = self.number(b)?;
        if from <= to {
            Some((from, Some(to)))
        } else {
            None
        }
    }

    // `*/N`, `A-B/N` or `A/N`, without the step.
    fn stepped(self, head: &[u8], step: u8) -> Option<Stretch>
        ensures value { result ≡ stepped self head.now step }
        ensures within { IfSome result (λ stretch. stretch.to ≤ self.high) }
    {
        if is_star(head) {
            return Some(Stretch {
                from: self.low,
                to: self.high,
                step,
            });
        }
        let (from, to) = self.ends(head)?;
        Some(Stretch {
            from,
            to: to.unwrap_or(self.high),
            step,
        })
    }

    // An item of a list.
    fn item(self, text: &[u8]) -> Option<Stretch>
        ensures value { result ≡ item_of self text.now }
        ensures step { IfSome result (λ stretch. 0 < stretch.step) }
        ensures within { IfSome result (λ stretch. stretch.to ≤ self.high) }
    {
        let (head, step) = cut(text, b'/');
        let Some(step) = step else {
            let (from, to) = self.ends(head)?;
            return Some(Stretch {
                from,
                to: to.unwrap_or(from),
                step: 1,
            });
        };
        let step = number(step)?;
        if step == 0 {
            return None;
        }
        self.stepped(head, step)
    }

    // Items joined by commas, as the set of their numbers.
    fn list(self, text: &[u8]) -> Option<u64>
        requires { self.high < NUMBERS }
        ensures none { result ≡ None → are_items self (split_at_byte comma text.now) ≡ false }
        ensures good { IfSome result (λ _. are_items self (split_at_byte comma text.now) ≡ true) }
        ensures numbers { IfSome result (λ numbers. (k : ℕ)
            → holds numbers k ≡ have self (split_at_byte comma text.now) k) }
    {
        let mut numbers = 0;
        let mut left = text;
        loop {
            let (item, rest) = cut(left, b',');
            numbers = self.item(item)?.mark(numbers);
            match rest {
                Some(rest) => left = rest,
                None => return Some(numbers),
            }
        }
    }

    // A field.
    fn field(self, text: &[u8]) -> Option<Field>
        requires { self.high < NUMBERS }
        ensures none { result ≡ None → is_field self text.now ≡ false }
        ensures some { IfSome result (λ field. IsField self text.now field) }
    {
        if is_any(text) {
            let whole = Stretch {
                from: self.low,
                to: self.high,
                step: 1,
            };
            return Some(Field {
                numbers: whole.mark(0),
                restricted: false,
            });
        }
        let numbers = self.list(text)?;
        Some(Field {
            numbers,
            restricted: true,
        })
    }
}

// Whether the text is `*`.
fn is_star(text: &[u8]) -> bool
    ensures { result ≡ is_star text.now }
{
    matches!(text, [b'*'])
}

// Whether the text is `*` or `?`.
fn is_any(text: &[u8]) -> bool
    ensures { result ≡ is_any text.now }
{
    matches!(text, [b'*' | b'?'])
}

/// The next field, with this number, of what is left of a schedule's text, and what is left then.
pub(crate) fn take_field(
    limits: Limits,
    number: u8,
    rest: Option<&[u8]>,
) -> Result<(Field, Option<&[u8]>), CronRefused>
    requires { limits.high < NUMBERS }
    ensures fault { MatchResult result
        (λ taken. (more : List Limits)
        → first_fault (limits ∷ more) number (pieces_left space (option_copied rest.entry))
        ≡ first_fault more (number + 1) (pieces_left space (option_copied taken.1)))
        (λ why. (more : List Limits)
        → (first_fault (limits ∷ more) number (pieces_left space (option_copied rest.entry))
        ≡ Some number)
        × (why ≡ CronRefused.Field number)) }
    ensures ok { IfOk result (λ taken. (more : List Limits) (fields : List Field)
        → AreFields more (pieces_left space (option_copied taken.1)) fields
        → AreFields (limits ∷ more) (pieces_left space (option_copied rest.entry))
        (taken.0 ∷ fields)) }
{
    let Some(text) = rest else {
        return Err(CronRefused::Field { field: number });
    };
    let (part, rest) = cut(text, b' ');
    match limits.field(part) {
        Some(field) => Ok((field, rest)),
        None => Err(CronRefused::Field { field: number }),
    }
}
