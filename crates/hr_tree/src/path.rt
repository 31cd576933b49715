//! The paths of files. (Our own.)
ghost use Rattle.std.specs.Prelude.{◌≡◌};
ghost use Rattle.hr_tree.specs.Path.{is_item, is_path};

/// Whether a text is a path: names with `/` between them, of which none is empty, `.` or `..`. So a
/// path leads nowhere but below the folder that it begins in.
pub fn is_path(text: &[u8]) -> bool
    ensures { result ≡ is_path text.now }
{
    text.split(|byte| *byte == b'/').all(|name| is_item(name))
}

// Whether a folder can have something of this name.
#[tactic(auto, unfolding(crate::specs::Path::is_item))]
fn is_item(name: &[u8]) -> bool
    ensures { result ≡ is_item name.now }
{
    !name.is_empty() && name != b".".as_slice() && name != b"..".as_slice()
}
