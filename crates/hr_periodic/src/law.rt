//! A law of schedules: what is read of a text is determined by the text.
ghost use Rattle.std.specs.Prelude.{◌≡◌};
ghost use Rattle.hr_base.specs.Bytes.{Text};
ghost use Rattle.hr_periodic.specs.declared.cron.Cron.{Cron};
ghost use Rattle.hr_periodic.specs.Reading.{StandsFor};

/// A law: a text stands for one schedule at most, to the last bit.
pub fn a_text_stands_for_one_schedule()
    ensures { (text : Text) (one other : Cron) → StandsFor text one → StandsFor text other
        → one ≡ other }
{}
