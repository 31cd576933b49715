//! The check of a configuration that stands in a file. (Our own.)
ghost use Rattle.std.specs.Prelude.{◌≡◌, ◌↔◌, IfNone, IfSome, IsTrue, codes};
ghost use Rattle.hr_tree.specs.Path.{IsPath};
ghost use Rattle.hr_top.specs.Checking.{Checks, IsCheck, Judges, NamesFile, SaysUnfit};
ghost use Rattle.hr_top.specs.Wording.{missing_text, refused_text};

use crate::outcome::Outcome;
use crate::wording::{fit_line, missing_line, refused_line};
use hr_base::{Bytes, Memory};
use hr_policy::{CONFIG_LIMIT, Config, ConfigRefused};
use hr_tree::{Tree, TreeFault, is_path};
use std::alloc::Global;

/// The path of the file that is to be checked, where the words are `check` and a path.
pub(crate) fn file_of(words: &[Bytes]) -> Option<&[u8]>
    ensures some { IfSome result (λ path. IsCheck words.now path.now) }
    ensures none { IfNone result (¬ NamesFile words.now) }
{
    match words {
        [word, path] if is_check(word.view()) && is_path(path.view()) => Some(path.view()),
        _ => None,
    }
}

// Whether a word is `check`.
fn is_check(word: &[u8]) -> bool
    ensures { IsTrue result ↔ (word.now ≡ codes "check") }
{
    word == b"check".as_slice()
}

/// Says of the file at a path whether it is a configuration, and else what is wrong with it.
pub(crate) fn check<T: Tree>(alloc: Global, tree: &mut T, path: &[u8]) -> Outcome
    requires { IsPath path.now }
    ensures files { T.files tree.new ≡ T.files tree.old }
    ensures checks { Checks (T.files tree.old) (T.faults tree.old) (T.faults tree.new) path.now
        result }
{
    match tree.read_file(path, CONFIG_LIMIT as u64) {
        Ok(Some(bytes)) => judge(alloc, bytes.view()),
        Ok(None) => miss(alloc),
        Err(TreeFault::TooLong { len }) => refuse(alloc, ConfigRefused::TooLong { len }),
        Err(TreeFault::Failed) => Outcome::TreeFaulted,
        Err(TreeFault::Memory) => Outcome::Memory,
    }
}

// Says of some bytes whether they are a configuration, and else their first fault.
fn judge(alloc: Global, bytes: &[u8]) -> Outcome
    ensures { Judges bytes.now result }
{
    let config = match Config::read(alloc, bytes) {
        Ok(config) => config,
        Err(why) => return refuse(alloc, why),
    };
    let registries = config.registries.view().len();
    match fit_line(alloc, registries, config.policies.view().len()) {
        Ok(text) => Outcome::Checked { text },
        Err(Memory) => Outcome::Memory,
    }
}

// No file is there.
fn miss(alloc: Global) -> Outcome
    ensures { SaysUnfit missing_text result }
{
    match missing_line(alloc) {
        Ok(text) => Outcome::Unfit { text },
        Err(Memory) => Outcome::Memory,
    }
}

// The first fault of a file, or want of memory where that is it.
fn refuse(alloc: Global, why: ConfigRefused) -> Outcome
    ensures says { SaysUnfit (refused_text why) result }
    ensures memory { why ≡ ConfigRefused.Memory → result ≡ Outcome.Memory }
{
    match refused_line(alloc, why) {
        Ok(text) => Outcome::Unfit { text },
        Err(Memory) => Outcome::Memory,
    }
}
