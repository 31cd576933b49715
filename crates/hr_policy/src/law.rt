//! What holds of every configuration that some bytes say.
ghost use Rattle.std.specs.Prelude.{◌≡◌, Ok};
ghost use Rattle.serde_json.specs.Data.{Data};
ghost use Rattle.hr_policy.specs.Reading.{config_in};
ghost use Rattle.hr_policy.specs.Sound.{IsSound};
ghost use Rattle.hr_policy.specs.Text.{IsTextConfig};
ghost use Rattle.hr_policy.specs.Written.{config_value};
ghost use Rattle.hr_policy.specs.declared.config.Config.{Config};

/// A law: a configuration that some JSON value says is said by its own value too, which thus has no
/// fault.
pub fn configurations_read_back()
    ensures { (d : Data) (c : Config) → config_in d ≡ Ok c → config_in (config_value c) ≡ Ok c }
{}

/// A law: all texts of a configuration that some JSON value says are in UTF-8.
pub fn configurations_are_texts()
    ensures { (d : Data) (c : Config) → config_in d ≡ Ok c → IsTextConfig c }
{}

/// A law: in a configuration that some JSON value says the numbers are distinct, each source and
/// each destination is a registry, and no source is a destination.
pub fn configurations_are_sound()
    ensures { (d : Data) (c : Config) → config_in d ≡ Ok c → IsSound c }
{}
