//! What is found where one thing is looked for: none, the one, or several.
ghost use Rattle.std.specs.Prelude.{◌++◌, List};
ghost use Rattle.std.specs.Option.{option_copied};
ghost use Rattle.hr_base.specs.Bytes.{Text};
ghost use Rattle.hr_route.specs.Found.{IsFound, as_list};

/// The values that were found.
#[derive(Clone, Copy)]
pub enum Found<'a> {
    /// There is none.
    Absent,
    /// There is one.
    One(&'a [u8]),
    /// There are several.
    Many,
}

impl<'a> Found<'a> {
    /// What is found where one value more comes behind those that were found, or none.
    pub fn with(self, value: Option<&'a [u8]>) -> Found<'a>
        ensures { (values : List Text) → IsFound values self.entry
            → IsFound (values ++ as_list (option_copied value.entry)) result }
    {
        let Some(value) = value else {
            return self;
        };
        match self {
            Found::Absent => Found::One(value),
            Found::One(_) => Found::Many,
            Found::Many => Found::Many,
        }
    }
}
