//! Laws of registries of which all can be copied. (Our own.)
ghost use Rattle.std.specs.Prelude.{◌≡◌, ◌≢◌, ℕ, IsSome, Ok, Some};
ghost use Rattle.hr_base.specs.Bytes.{Text};
ghost use Rattle.hr_name.specs.Name.{RepoName};
ghost use Rattle.hr_name.specs.Tag.{TagName};
ghost use Rattle.hr_adapter.specs.Content.{Target, tag_at, target_at};
ghost use Rattle.hr_memreg.specs.Mem.{seen_of};
ghost use Rattle.hr_opening.specs.Opening.{after_lines};
ghost use Rattle.hr_opening.specs.Setup.{Setups, no_setups, registry_of, setup_in};
ghost use Rattle.hr_script.specs.Reading.{IsReading};
ghost use Rattle.hr_script.specs.declared.reading.Lines.{Lines};
ghost use Rattle.hr_whole.specs.Whole.{TagIsWhole};
ghost use Rattle.hr_copyable.specs.Canonical.{AreCanonical};
ghost use Rattle.hr_copyable.specs.Copyable.{HoldsTags, IsCopyable, IsUndisturbed};
ghost use Rattle.hr_copyable.specs.LineTexts.{StoreOneText};
ghost use Rattle.hr_copyable.specs.Worked.{both, lone_lines, worked_lines, worked_repo};

use hr_manifest::{image_reads_back, index_reads_back};
use hr_opening::what_is_read_is_fit;
use hr_whole::few_pairs_are_reached_of_few;

/// A law: each registry of which all can be copied tells its content, has not failed and can't, and
/// no tag of it will be moved.
pub fn copyable_registries_are_undisturbed()
    ensures { (opens : Setups) (reg : ℕ) → IsCopyable opens
        → IsUndisturbed (seen_of (registry_of (setup_in opens reg))) (setup_in opens reg).content }
{}

/// A law: each tag that stands in a registry which is read from can be copied by a task.
pub fn copyable_tags_are_whole()
    ensures { (opens : Setups) (reg : ℕ) (repo : RepoName) (tag : TagName) (target : Target)
        → IsCopyable opens → reg ≢ 2
        → target_at (setup_in opens reg).content repo tag ≡ Some target
        → TagIsWhole (setup_in opens reg).content repo tag }
{}

/// A law: where the lines of a script are canonical, and no digest stands for two of the texts that
/// they store, the graph of each manifest that a tag names is held, in every registry.
pub fn canonical_lines_store_whole_tags()
    ensures { (text : Text) (read : Lines) (opens : Setups) (reg : ℕ)
        → IsReading text read → after_lines no_setups read.lines ≡ Ok opens
        → AreCanonical read.lines → StoreOneText read.lines
        → HoldsTags (setup_in opens reg).content }
{
    what_is_read_is_fit();
    few_pairs_are_reached_of_few();
    image_reads_back();
    index_reads_back();
}

/// A law: where the lines of a script are canonical, and no digest stands for two of the texts that
/// they store, all that stands in the registries can be copied.
pub fn canonical_lines_can_be_copied()
    ensures { (text : Text) (read : Lines) (opens : Setups)
        → IsReading text read → after_lines no_setups read.lines ≡ Ok opens
        → AreCanonical read.lines → StoreOneText read.lines → IsCopyable opens }
{
    what_is_read_is_fit();
    few_pairs_are_reached_of_few();
    image_reads_back();
    index_reads_back();
}

/// A law: a worked script of two images and an index of them is canonical, opens with the tag of
/// the index, and can be copied, where no digest stands for two of its six texts.
pub fn a_worked_script_can_be_copied()
    ensures canonical { AreCanonical worked_lines }
    ensures opens { (opens : Setups) × (after_lines no_setups worked_lines ≡ Ok opens)
        × IsSome (tag_at (setup_in opens 1).content worked_repo both) }
    ensures copied { (opens : Setups) → after_lines no_setups worked_lines ≡ Ok opens
        → StoreOneText worked_lines → IsCopyable opens }
{
    few_pairs_are_reached_of_few();
    image_reads_back();
    index_reads_back();
}

/// A law: the script of an index of nothing opens with its tag, and can be copied, whatever digests
/// stand for.
pub fn an_index_of_nothing_can_be_copied()
    ensures { (opens : Setups) × (after_lines no_setups lone_lines ≡ Ok opens)
        × IsSome (tag_at (setup_in opens 1).content worked_repo both) × IsCopyable opens }
{
    few_pairs_are_reached_of_few();
    image_reads_back();
    index_reads_back();
}
