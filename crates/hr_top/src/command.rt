//! The public call: words and what the devices hold in, text and state out. (Our own.)
ghost use Rattle.std.specs.Prelude.{◌≡◌, ◌≤◌, ◌↔◌, ◌⊎◌, IsTrue, List, Option, ℕ, length};
ghost use Rattle.hr_cause.specs.Stream.{Rose, TookFront};
ghost use Rattle.hr_tree.specs.Tree.{Files};
ghost use Rattle.hr_top.specs.Answers.{memory_text};
ghost use Rattle.hr_script.specs.declared.reading.TheConstants.{SCRIPT_LIMIT};
ghost use Rattle.hr_top.specs.Checking.{NamesFile};
ghost use Rattle.hr_top.specs.Input.{WasRead};
ghost use Rattle.hr_top.specs.Outcome.{Comes};
ghost use Rattle.hr_replay.specs.Replay.{IsNothing};
ghost use Rattle.hr_top.specs.Command.{IsAny, IsDone, IsFaulted, IsRefused, IsReplay, IsStatus, IsUsage, Sent, SentFront};

use crate::checking::{check, file_of};
use crate::input::{InputRefused, read_input};
use crate::outcome::Outcome;
use hr_base::Bytes;
use hr_cause::{Failed, Sink, Source, send};
use hr_replay::{Ending, Refused, Replayed, replay};
use hr_script::SCRIPT_LIMIT;
use hr_tree::Tree;
use std::alloc::Global;

/// Runs the command that the words name, and answers the program's status. The words are those
/// behind the program's name.
///
/// | Command | Does |
/// |---|---|
/// | `replay` | reads a script from the input to its end, runs it, and sends the answers of its events |
/// | `check FILE` | reads a configuration from the file at this path, and sends how many registries and policies it has |
///
/// | Status | Comes |
/// |---|---|
/// | 0 | the script was run, and each execution succeeded; the file is a configuration |
/// | 1 | the words name no command, or their FILE is no path: the usage line is sent |
/// | 2 | the input is no script: its first bad line is sent, 0 where it is too long; no file is there, or the file is no configuration: its first fault is sent |
/// | 3 | the input or the tree failed |
/// | 4 | the sink failed: a front of the text was sent |
/// | 5 | want of memory, but inside a task, which then ends with an error |
/// | 7 | the script was run, and an execution did not succeed |
///
/// Where several hold, the first of 5, 4, 3, 1, 2, 7 is answered. With any status but 0, 4 and 7
/// nothing is kept, and nothing by `check`. `kept` has to be empty before the call.
pub fn top<S: Source, K: Sink, T: Tree>(
    alloc: Global,
    words: &[Bytes],
    input: &mut S,
    out: &mut K,
    tree: &mut T,
    kept: &mut Ending,
) -> u8
    requires { IsNothing kept.old }

    // The answer is one of these.
    ensures statuses { IsStatus result }

    // 0 and 7: the whole input is a script, which was run, and its answers were sent; or 0: the file
    // is a configuration, which was said.
    ensures done { (result ≡ 0) ⊎ (result ≡ 7)
        → Sent (IsDone words.now (S.left input.old) (S.left input.new) (T.files tree.old)
        kept.new result)
        (K.sent out.old) (K.sent out.new) }

    // 1: the words are others.
    ensures usage { result ≡ 1
        → Sent (IsUsage words.now (S.left input.old) (S.left input.new) kept.new)
        (K.sent out.old) (K.sent out.new) }

    // 2: the whole input is no script, or it is too long to be one; or no file is there, or its
    // bytes are no configuration.
    ensures refused { result ≡ 2
        → Sent (IsRefused words.now (S.left input.old) (S.left input.new) (T.files tree.old)
        kept.new)
        (K.sent out.old) (K.sent out.new) }

    // 3: the device that the command reads failed.
    ensures faulted { result ≡ 3
        → Sent (IsFaulted words.now (S.faults input.old) (S.faults input.new)
        (T.faults tree.old) (T.faults tree.new) kept.new)
        (K.sent out.old) (K.sent out.new) }

    // 4: the sink failed. All is as with one of the statuses above, but a front of its text was
    // sent.
    ensures cut_off { result ≡ 4 → Rose (K.faults out.old) (K.faults out.new)
        × SentFront (IsAny words.now (S.left input.old) (S.left input.new) (T.files tree.old)
        (S.faults input.old) (S.faults input.new) (T.faults tree.old) (T.faults tree.new)
        kept.new)
        (K.sent out.old) (K.sent out.new) }

    // 5: there was no room, and nothing is kept.
    ensures memory { result ≡ 5
        → IsNothing kept.new × TookFront (K.sent out.old) memory_text (K.sent out.new) }

    // A fault of a device is answered, unless an earlier status of the order is.
    ensures input_calm { (result ≡ 3) ⊎ (result ≡ 4) ⊎ (result ≡ 5)
        ⊎ (S.faults input.new ≡ S.faults input.old) }
    ensures tree_calm { (result ≡ 3) ⊎ (result ≡ 4) ⊎ (result ≡ 5)
        ⊎ (T.faults tree.new ≡ T.faults tree.old) }
    ensures out_calm { (result ≡ 4) ⊎ (result ≡ 5) ⊎ (K.faults out.new ≡ K.faults out.old) }

    // No file changes, and a device that the command does not read is not touched.
    ensures files { T.files tree.new ≡ T.files tree.old }
    ensures input_untouched { ¬ IsReplay words.now → (S.left input.new ≡ S.left input.old)
        × (S.faults input.new ≡ S.faults input.old) }
    ensures tree_untouched { ¬ NamesFile words.now → T.faults tree.new ≡ T.faults tree.old }
{
    let outcome = play(alloc, words, input, tree, kept);
    match send(out, outcome.text()) {
        Ok(()) => outcome.status(),
        Err(Failed) => outcome.unsent_status(),
    }
}

// Runs the command that the words name, and says how it came out.
fn play<S: Source, T: Tree>(
    alloc: Global,
    words: &[Bytes],
    input: &mut S,
    tree: &mut T,
    kept: &mut Ending,
) -> Outcome
    requires { IsNothing kept.old }
    ensures comes { Comes result words.now (S.left input.old) (S.left input.new)
        (T.files tree.old) (S.faults input.old) (S.faults input.new) (T.faults tree.old)
        (T.faults tree.new) kept.new }
    ensures files { T.files tree.new ≡ T.files tree.old }
    ensures input_untouched { ¬ IsReplay words.now → (S.left input.new ≡ S.left input.old)
        × (S.faults input.new ≡ S.faults input.old) }
    ensures tree_untouched { ¬ NamesFile words.now → T.faults tree.new ≡ T.faults tree.old }
{
    if is_replay(words) {
        return replay_input(alloc, input, kept);
    }
    match file_of(words) {
        Some(path) => check(alloc, tree, path),
        None => Outcome::Usage,
    }
}

// Whether the words are the one word `replay`.
fn is_replay(words: &[Bytes]) -> bool
    ensures { IsTrue result ↔ IsReplay words.now }
{
    match words {
        [word] => word.view() == b"replay".as_slice(),
        _ => false,
    }
}

// Reads a script from the input, and runs it.
fn replay_input<S: Source>(alloc: Global, input: &mut S, kept: &mut Ending) -> Outcome
    requires { IsNothing kept.old }
    ensures { (words : List (List ℕ)) (files : Option Files) (tree : ℕ) → IsReplay words
        → Comes result words (S.left input.old) (S.left input.new) files (S.faults input.old)
        (S.faults input.new) tree tree kept.new }
{
    let bytes = match read_input(alloc, input) {
        Ok(bytes) => bytes,
        Err(InputRefused::Failed) => return Outcome::Faulted,
        Err(InputRefused::TooLong) => return Outcome::TooLong,
        Err(InputRefused::Memory) => return Outcome::Memory,
    };
    replay_script(alloc, &bytes, kept)
}

// Runs a script.
fn replay_script(alloc: Global, bytes: &[u8], kept: &mut Ending) -> Outcome
    requires short { length bytes.now ≤ SCRIPT_LIMIT }
    requires nothing { IsNothing kept.old }
    ensures { (words : List (List ℕ)) (before now : Option (List ℕ)) (files : Option Files)
        (faults tree : ℕ) → IsReplay words → WasRead before bytes.now now
        → Comes result words before now files faults faults tree tree kept.new }
{
    match replay(alloc, bytes) {
        Ok(
            Replayed {
                kept: left,
                text,
                status,
            },
        ) => {
            *kept = left;
            Outcome::Replayed { text, status }
        }
        Err(Refused::Bad { text }) => Outcome::Bad { text },
        Err(Refused::Memory) => Outcome::Memory,
    }
}
