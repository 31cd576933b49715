//! One field of a schedule: which numbers match in it. (Our own.)
ghost use Rattle.std.specs.Prelude.{◌≡◌, ◌<◌, ◌≤◌};

/// The numbers of each field of a schedule are below this.
pub const NUMBERS: u8 = 60;

/// The numbers that match in one field of a schedule.
#[derive(Clone, Copy, Debug, PartialEq, Eq)]
pub struct Field {
    /// Bit k is set where the number k matches. The bits from `NUMBERS` on are 0 in what is read.
    pub numbers: u64,
    /// Whether the text of the field is another than `*` and `?`.
    pub restricted: bool,
}

impl Field {
    ghost use Rattle.hr_periodic.specs.Field.{has};
    ghost use Rattle.hr_periodic.specs.Steps.{Searches};

    /// Whether the number matches.
    pub fn has(self, number: u8) -> bool
        requires { number < 64 }
        ensures { result ≡ has self number }
    {
        (self.numbers >> number) & 1 == 1
    }

    /// The least number that matches, from `low` on and below `high`.
    pub(crate) fn least(self, low: u8, high: u8) -> Option<u8>
        requires { high ≤ 64 }
        ensures { Searches (has self) low high result }
    {
        for number in low..high {
            if self.has(number) {
                return Some(number);
            }
        }
        None
    }
}
