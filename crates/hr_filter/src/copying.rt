//! Copies of lists. (Our own.)
ghost use Rattle.std.specs.Prelude.{◌≡◌, IfOk};

use hr_base::{Bytes, List, Memory};
use hr_name::Tag;
use std::alloc::Global;

/// Equal texts.
pub fn copy_texts(alloc: Global, texts: &[Bytes]) -> Result<List<Bytes>, Memory>
    ensures { IfOk result (λ made. made ≡ texts.now) }
{
    let mut made = List::new(alloc);
    for text in texts {
        made.push(text.copy(alloc)?)?;
    }
    Ok(made)
}

/// Equal tags.
pub fn copy_tags(alloc: Global, tags: &[Tag]) -> Result<List<Tag>, Memory>
    ensures { IfOk result (λ made. made ≡ tags.now) }
{
    let mut made = List::new(alloc);
    for tag in tags {
        made.push(tag.copy(alloc)?)?;
    }
    Ok(made)
}
