//! Pages of lists. (After Harbor's API.)
ghost use Rattle.std.specs.Prelude.{◌≡◌, reverse};
ghost use Rattle.hr_rest.specs.Page.{before_page, page_of};

/// How many items stand before a page, by its number from 1 and how many items it has.
pub(crate) fn before_page(page: u32, size: u32) -> usize
    ensures { result ≡ before_page page size }
{
    page.saturating_sub(1) as usize * size as usize
}

/// The items of a page of a list that goes from the last item to the first, in the order in which
/// they stand here.
pub(crate) fn page_from_last<T>(items: &[T], page: u32, size: u32) -> &[T]
    ensures { reverse result.now ≡ page_of page size (reverse items.now) }
{
    let end = items.len().saturating_sub(before_page(page, size));
    let start = end.saturating_sub(size as usize);
    &items[start..end]
}
