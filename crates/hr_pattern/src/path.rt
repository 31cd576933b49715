//! Whether the components of a form cover the components of a text. This walk too remembers the
//! newest `**` alone, so that it compares each component with each at most once.
ghost use Rattle.std.specs.Prelude.{◌≡◌, ◌↔◌, [], IsTrue};
ghost use Rattle.hr_pattern.specs.Covers.{AfterRun};
ghost use Rattle.hr_pattern.specs.Form.{FormCovers};
ghost use Rattle.hr_pattern.specs.Item.{CoversPath, is_any_path};

use crate::component::Components;
use crate::covering::covers_bytes;
use crate::item::Item;

/// Whether a form covers a text.
pub fn covers(form: &[Item], text: &[u8]) -> bool
    ensures { IsTrue result ↔ FormCovers text.now form.now }
{
    let mut asked = Components::of(form);
    let mut left = Components::of(text);
    while let Some((items, later)) = asked.split_first() {
        if is_any_path(items) {
            return covers_some_end(&later, &left);
        }
        let Some((component, rest)) = left.split_first() else {
            return false;
        };
        if !covers_bytes(items, component) {
            return false;
        }
        asked = later;
        left = rest;
    }
    left.split_first().is_none()
}

// Whether the components of a form cover some end of those of a text.
fn covers_some_end(form: &Components<'_, Item>, text: &Components<'_, u8>) -> bool
    ensures { IsTrue result ↔ AfterRun (CoversPath form.now) text.now }
{
    let mut behind_star = form.again();
    let mut tried = text.again();
    let mut asked = form.again();
    let mut left = text.again();
    while let Some((component, rest)) = left.split_first() {
        if let Some((items, later)) = asked.split_first() {
            if is_any_path(items) {
                behind_star = later.again();
                tried = left.again();
                asked = later;
                continue;
            }
            if covers_bytes(items, component) {
                asked = later;
                left = rest;
                continue;
            }
        }
        tried = tried.behind_first();
        asked = behind_star.again();
        left = tried.again();
    }
    covers_nothing(&asked)
}

// Whether the components of a form cover no components: each of them is `**`.
fn covers_nothing(form: &Components<'_, Item>) -> bool
    ensures { IsTrue result ↔ CoversPath form.now [] }
{
    let mut asked = form.again();
    while let Some((items, later)) = asked.split_first() {
        if !is_any_path(items) {
            return false;
        }
        asked = later;
    }
    true
}

// Whether a component covers any number of components: it is `**` and no more.
fn is_any_path(items: &[Item]) -> bool
    ensures { result ≡ is_any_path items.now }
{
    matches!(items, [Item::Any, Item::Any])
}
