//! The components of a text and of an expanded form, which `/` separates.
ghost use Rattle.std.specs.Prelude.{◌≡◌, [], MatchOption, ◌==◌, drop, position};
ghost use Rattle.std.specs.List.{slice_split, IsFirstAndRest};

use std::marker::Model;

/// What a list is made of that is cut into components.
pub trait Separated {
    ghost use Rattle.std.specs.Prelude.{Bool};

    /// Whether it separates two components.
    ghost is_slash: { Self → Bool };

    /// Whether it separates two components.
    fn is_slash(&self) -> bool
        ensures { result ≡ is_slash self.now };
}

impl Separated for u8 {
    ghost is_slash = { λ byte. byte == 47 };

    fn is_slash(&self) -> bool {
        *self == b'/'
    }
}

/// The components of a list that are left to come.
#[derive(Drop)]
pub struct Components<'a, T: Separated> {
    left: Option<&'a [T]>,
}

impl<'a, T: Separated> Model for Components<'a, T> {
    ghost use Rattle.std.specs.Prelude.{List};

    ghost Value = { List (List T) };

    ghost use Rattle.std.specs.Option.{option_copied};
    ghost use Rattle.hr_pattern.specs.Component.{components_left};

    ghost view = { λ c. components_left T.is_slash (option_copied c.left) };
}

impl<'a, T: Separated> Components<'a, T> {
    /// All components of a list, of which there is at least one.
    pub fn of(whole: &'a [T]) -> Components<'a, T>
        ensures { result ≡ slice_split T.is_slash whole.now }
    {
        Components { left: Some(whole) }
    }

    /// The first component, and those behind it.
    pub fn split_first(&self) -> Option<(&'a [T], Components<'a, T>)>
        ensures { MatchOption result (self.now ≡ []) (λ p. IsFirstAndRest self.now p.0.now p.1) }
    {
        let left = self.left?;
        let Some(end) = first_slash(left) else {
            return Some((left, Components { left: None }));
        };
        let rest = Components {
            left: Some(&left[end + 1..]),
        };
        Some((&left[..end], rest))
    }

    /// The components behind the first, or none where there are none.
    pub fn behind_first(&self) -> Components<'a, T>
        ensures { result ≡ drop 1 self.now }
    {
        match self.split_first() {
            Some((_, rest)) => rest,
            None => self.again(),
        }
    }

    /// The same components.
    pub fn again(&self) -> Components<'a, T>
        ensures { result ≡ self.now }
    {
        Components { left: self.left }
    }
}

fn first_slash<T: Separated>(whole: &[T]) -> Option<usize>
    ensures { result ≡ position T.is_slash whole.now }
{
    whole.iter().position(|thing| thing.is_slash())
}
