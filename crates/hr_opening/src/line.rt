//! What a setup line makes of the registry that it names. (Our own.)
ghost use Rattle.std.specs.Prelude.{◌≡◌, Some, None, OnOk, length, option_map};
ghost use Rattle.hr_adapter.specs.Content.{tag_at};
ghost use Rattle.hr_opening.specs.Fit.{IsFit};
ghost use Rattle.hr_opening.specs.Opening.{after_line, registry_named, setup_after};
ghost use Rattle.hr_opening.specs.Setup.{ArePlain, with_change};
ghost use Rattle.hr_opening.specs.Stored.{IsPlain};

use crate::setup::RegSetup;
use crate::storing::{
    LineRefused, store_broken, store_image, store_index, store_orphan, store_tagged,
};
use hr_base::RegNo;
use hr_event::Fetched;
use hr_memreg::{Change, Planned};
use hr_name::{Name, Tag};
use hr_script::Line;
use std::alloc::Global;

/// Does what a line says to the registry that it names; `jobs` and an event name none. After an error that
/// registry may have a part of it.
pub(crate) fn take_setup(
    alloc: Global,
    setups: &mut [RegSetup],
    line: Line,
) -> Result<(), LineRefused>
    requires fit { IsFit line }
    requires eight { length setups.old ≡ 8 }
    requires plain { ArePlain setups.old }
    ensures ok { OnOk result (after_line setups.old line ≡ Some setups.new) }
    ensures reference { result ≡ Err LineRefused.Reference → after_line setups.old line ≡ None }
{
    match registry_named(&line) {
        Some(reg) => change_setup(alloc, &mut setups[reg.0 as usize - 1], line),
        None => Ok(()),
    }
}

// The registry that a setup line names.
fn registry_named(line: &Line) -> Option<RegNo>
    ensures { result ≡ registry_named line.now }
{
    match line {
        Line::Image { reg, .. }
        | Line::Index { reg, .. }
        | Line::Orphan { reg, .. }
        | Line::Manifest { reg, .. }
        | Line::Break { reg, .. }
        | Line::Fault { reg, .. }
        | Line::Change { reg, .. } => Some(*reg),
        Line::Jobs { .. } | Line::Event(_) => None,
    }
}

// Does what a setup line says to the registry that it names.
fn change_setup(alloc: Global, setup: &mut RegSetup, line: Line) -> Result<(), LineRefused>
    requires plain { IsPlain setup.old.content }
    ensures ok { OnOk result (setup_after line setup.old ≡ Some setup.new) }
    ensures reference { result ≡ Err LineRefused.Reference → setup_after line setup.old ≡ None }
{
    let content = &mut setup.content;
    match line {
        Line::Image {
            repo,
            tag,
            layers,
            ..
        } => Ok(store_image(alloc, content, &repo, &tag, layers)?),
        Line::Index {
            repo,
            tag,
            children,
            ..
        } => store_index(alloc, content, &repo, &tag, &children),
        Line::Orphan { repo, layers, .. } => Ok(store_orphan(alloc, content, &repo, &layers)?),
        Line::Manifest {
            repo,
            tag,
            media,
            text,
            ..
        } => {
            let manifest = Fetched { media, bytes: text };
            Ok(store_tagged(content, &repo, &tag, manifest)?)
        }
        Line::Break {
            repo,
            honest,
            stored,
            ..
        } => Ok(store_broken(content, &repo, &honest, stored)?),
        Line::Fault { op, lands, .. } => {
            let op = u64::from(op);
            Ok(setup.failing.push(Planned { op, lands })?)
        }
        Line::Change {
            op,
            repo,
            tag,
            to,
            ..
        } => plan_change(setup, op, repo, tag, &to),
        Line::Jobs { .. } | Line::Event(_) => Ok(()),
    }
}

// Plans that a tag is made to name what another one names now.
fn plan_change(
    setup: &mut RegSetup,
    op: u32,
    repo: Name,
    tag: Tag,
    to: &Tag,
) -> Result<(), LineRefused>
    ensures ok { OnOk result (option_map
        (λ d. with_change (record { op = op; repo = repo; tag = tag; digest = d }) setup.old)
        (tag_at setup.old.content repo to.now) ≡ Some setup.new) }
    ensures reference { result ≡ Err LineRefused.Reference
        → tag_at setup.old.content repo to.now ≡ None }
{
    let Some(digest) = setup.content.named(&repo, to) else {
        return Err(LineRefused::Reference);
    };
    let op = u64::from(op);
    Ok(
        setup.moves.push(Change {
            op,
            repo,
            tag,
            digest,
        })?,
    )
}
