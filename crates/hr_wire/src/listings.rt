//! The bodies of listings (OCI Distribution 1.1, "Listing tags"; the catalog is that of the Docker
//! Registry HTTP API V2, "Listing Repositories").
ghost use Rattle.std.specs.Prelude.{◌≡◌, ◌++◌, IfOk, OnOk, option_and_then, option_map};
ghost use Rattle.serde_json.specs.Find.{as_str};
ghost use Rattle.hr_call.specs.Reading.{name_in, tag_in};
ghost use Rattle.hr_json.specs.Doc.{content_of};
ghost use Rattle.hr_json.specs.Node.{value_of, values_of};
ghost use Rattle.hr_wire.specs.Listing.{each_read, json_in, listed, quoted};
ghost use Rattle.hr_wire.specs.Listing.{repos_in, repos_text, repos_within, tags_in, tags_of, tags_text, tags_within};

use hr_base::{Bytes, List, Memory};
use hr_call::{read_name, read_tag};
use hr_json::{Doc, Items, JsonRefused, Node};
use hr_name::{Name, Tag};
use std::alloc::{AllocError, Global};

/// The body of a page of repositories.
pub(crate) fn repos_body(alloc: Global, repos: &[Name]) -> Result<Bytes, Memory>
    ensures { IfOk result (λ text. text ≡ repos_text repos.now) }
{
    let mut text = Vec::new(alloc);
    text.extend_from_slice(b"{\"repositories\":[")?;
    put_names(&mut text, repos)?;
    text.extend_from_slice(b"]}")?;
    Ok(Bytes::from(text))
}

/// The body of a page of the tags of a repository.
pub(crate) fn tags_body(alloc: Global, repo: &[u8], tags: &[Tag]) -> Result<Bytes, Memory>
    ensures { IfOk result (λ text. text ≡ tags_text repo.now tags.now) }
{
    let mut text = Vec::new(alloc);
    text.extend_from_slice(b"{\"name\":\"")?;
    text.extend_from_slice(repo)?;
    text.extend_from_slice(b"\",\"tags\":[")?;
    put_tags(&mut text, tags)?;
    text.extend_from_slice(b"]}")?;
    Ok(Bytes::from(text))
}

// Puts names between quotes behind a text, with commas between them.
fn put_names(text: &mut Vec<u8>, names: &[Name]) -> Result<(), AllocError>
    ensures { OnOk result (text.new.items ≡ text.old.items ++ listed names.now) }
{
    let Some((first, others)) = names.split_first() else {
        return Ok(());
    };
    put_quoted(text, first.view())?;
    for name in others {
        text.extend_from_slice(b",")?;
        put_quoted(text, name.view())?;
    }
    Ok(())
}

// Puts tags between quotes behind a text, with commas between them.
fn put_tags(text: &mut Vec<u8>, tags: &[Tag]) -> Result<(), AllocError>
    ensures { OnOk result (text.new.items ≡ text.old.items ++ listed tags.now) }
{
    let Some((first, others)) = tags.split_first() else {
        return Ok(());
    };
    put_quoted(text, first.view())?;
    for tag in others {
        text.extend_from_slice(b",")?;
        put_quoted(text, tag.view())?;
    }
    Ok(())
}

// Puts a text between quotes behind another. It has no byte that JSON escapes.
fn put_quoted(text: &mut Vec<u8>, item: &[u8]) -> Result<(), AllocError>
    ensures { OnOk result (text.new.items ≡ text.old.items ++ quoted item.now) }
{
    text.extend_from_slice(b"\"")?;
    text.extend_from_slice(item)?;
    text.extend_from_slice(b"\"")
}

/// The repositories that a body lists, or `None` where it lists none: it is no JSON of at most
/// `DOC_LIMIT` bytes, has no list `repositories`, or that has an item that is no name.
pub(crate) fn repos_in(alloc: Global, body: &[u8]) -> Result<Option<List<Name>>, Memory>
    ensures { IfOk result (λ repos. repos ≡ repos_in body.now) }
{
    match json_in(alloc, body)? {
        Some(doc) => repos_within(alloc, &doc.root()),
        None => Ok(None),
    }
}

// The repositories that the list `repositories` of a value has.
fn repos_within(alloc: Global, root: &Node<'_>) -> Result<Option<List<Name>>, Memory>
    ensures { IfOk result (λ repos. repos ≡ repos_within (value_of root.now)) }
{
    let Some(value) = root.member("repositories") else {
        return Ok(None);
    };
    match value.items() {
        Some(items) => names_in(alloc, &items),
        None => Ok(None),
    }
}

/// The tags that a body lists, of which null has none; or `None` as of repositories.
pub(crate) fn tags_in(alloc: Global, body: &[u8]) -> Result<Option<List<Tag>>, Memory>
    ensures { IfOk result (λ tags. tags ≡ tags_in body.now) }
{
    match json_in(alloc, body)? {
        Some(doc) => tags_within(alloc, &doc.root()),
        None => Ok(None),
    }
}

// The tags that the list `tags` of a value has.
fn tags_within(alloc: Global, root: &Node<'_>) -> Result<Option<List<Tag>>, Memory>
    ensures { IfOk result (λ tags. tags ≡ tags_within (value_of root.now)) }
{
    match root.member("tags") {
        Some(value) => tags_of(alloc, &value),
        None => Ok(None),
    }
}

// The tags that a value lists, of which null has none.
fn tags_of(alloc: Global, value: &Node<'_>) -> Result<Option<List<Tag>>, Memory>
    ensures { IfOk result (λ tags. tags ≡ tags_of (value_of value.now)) }
{
    if value.is_null() {
        return Ok(Some(List::new(alloc)));
    }
    match value.items() {
        Some(items) => listed_tags(alloc, &items),
        None => Ok(None),
    }
}

// The JSON value of a body within the limit.
fn json_in(alloc: Global, body: &[u8]) -> Result<Option<Doc>, Memory>
    ensures { IfOk result (λ doc. option_map content_of doc ≡ json_in body.now) }
{
    match Doc::read(alloc, body) {
        Ok(doc) => Ok(Some(doc)),
        Err(JsonRefused::TooLong { .. }) => Ok(None),
        Err(JsonRefused::NotJson) => Ok(None),
        Err(JsonRefused::Memory) => Err(Memory),
    }
}

// The names that items are.
fn names_in(alloc: Global, items: &Items<'_>) -> Result<Option<List<Name>>, Memory>
    ensures { IfOk result (λ names. names ≡ each_read name_in (values_of items.now)) }
{
    let mut names = List::new(alloc);
    for at in 0..items.count() {
        let Some(item) = items.at(at) else {
            continue;
        };
        let Some(name) = name_of(alloc, &item)? else {
            return Ok(None);
        };
        names.push(name)?;
    }
    Ok(Some(names))
}

// The tags that items are.
fn listed_tags(alloc: Global, items: &Items<'_>) -> Result<Option<List<Tag>>, Memory>
    ensures { IfOk result (λ tags. tags ≡ each_read tag_in (values_of items.now)) }
{
    let mut tags = List::new(alloc);
    for at in 0..items.count() {
        let Some(item) = items.at(at) else {
            continue;
        };
        let Some(tag) = tag_of(alloc, &item)? else {
            return Ok(None);
        };
        tags.push(tag)?;
    }
    Ok(Some(tags))
}

// The name that a value is.
fn name_of(alloc: Global, value: &Node<'_>) -> Result<Option<Name>, Memory>
    ensures { IfOk result (λ name.
        name ≡ option_and_then name_in (as_str (value_of value.now))) }
{
    match value.text() {
        Some(text) => read_name(alloc, text),
        None => Ok(None),
    }
}

// The tag that a value is.
fn tag_of(alloc: Global, value: &Node<'_>) -> Result<Option<Tag>, Memory>
    ensures { IfOk result (λ tag. tag ≡ option_and_then tag_in (as_str (value_of value.now))) }
{
    match value.text() {
        Some(text) => read_tag(alloc, text),
        None => Ok(None),
    }
}
