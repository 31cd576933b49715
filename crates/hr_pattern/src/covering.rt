//! Whether the items of one component cover the bytes of one component. The walk remembers the
//! newest star alone, so that it compares each item with each byte at most once.
ghost use Rattle.std.specs.Prelude.{◌≡◌, ◌↔◌, [], IsTrue};
ghost use Rattle.hr_pattern.specs.Covers.{AfterRun};
ghost use Rattle.hr_pattern.specs.Item.{CoversBytes};

use crate::item::Item;

/// Whether the items cover the bytes.
pub fn covers_bytes(items: &[Item], bytes: &[u8]) -> bool
    ensures { IsTrue result ↔ CoversBytes items.now bytes.now }
{
    let mut asked = items;
    let mut left = bytes;
    while let Some((item, later)) = asked.split_first() {
        if item.is_any() {
            return covers_some_end(later, left);
        }
        let Some((byte, rest)) = left.split_first() else {
            return false;
        };
        if !item.meets(*byte) {
            return false;
        }
        asked = later;
        left = rest;
    }
    left.is_empty()
}

// Whether the items cover some end of the bytes.
fn covers_some_end(items: &[Item], bytes: &[u8]) -> bool
    ensures { IsTrue result ↔ AfterRun (CoversBytes items.now) bytes.now }
{
    let mut behind_star = items;
    let mut tried = bytes;
    let mut asked = items;
    let mut left = bytes;
    while let Some((byte, rest)) = left.split_first() {
        if let Some((item, later)) = asked.split_first() {
            if item.is_any() {
                behind_star = later;
                tried = left;
                asked = later;
                continue;
            }
            if item.meets(*byte) {
                asked = later;
                left = rest;
                continue;
            }
        }
        tried = &tried[1..];
        asked = behind_star;
        left = tried;
    }
    covers_nothing(asked)
}

// Whether the items cover no bytes: each of them covers any run.
fn covers_nothing(items: &[Item]) -> bool
    ensures { IsTrue result ↔ CoversBytes items.now [] }
{
    let mut asked = items;
    while let Some((item, later)) = asked.split_first() {
        if !item.is_any() {
            return false;
        }
        asked = later;
    }
    true
}
