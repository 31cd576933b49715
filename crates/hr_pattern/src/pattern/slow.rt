//! The definition once more, by enumeration and from its words, for the tests: slow, and with
//! nothing in common with the walks.
use crate::refusal::Why;
use std::alloc::{AllocError, Global};

/// A byte of a form, and whether it is special there.
type Unit = (u8, bool);

/// Whether a text fits one of the forms.
pub fn fits(alloc: Global, forms: &[Vec<Unit>], text: &[u8]) -> Result<bool, AllocError> {
    let parts: Vec<&[u8]> = text.split(|byte| *byte == b'/').collect(alloc)?;
    for form in forms {
        let form: Vec<&[Unit]> = form.split(|unit| *unit == (b'/', false)).collect(alloc)?;
        if path(form.as_slice(), parts.as_slice()) {
            return Ok(true);
        }
    }
    Ok(false)
}

/// The expanded forms of a pattern, byte by byte, or its first fault. Forms are not counted.
pub fn forms(
    alloc: Global,
    text: &[u8],
) -> Result<Result<Vec<Vec<Unit>>, (usize, Why)>, AllocError> {
    let mut forms = vec![in alloc; Vec::new(alloc)]?;
    let mut group: Option<(usize, Vec<Vec<Unit>>)> = None;
    let mut escape: Option<usize> = None;
    for (at, byte) in text.iter().enumerate() {
        let plain = escape.take().is_some();
        if !plain && *byte == b'\\' {
            escape = Some(at);
            continue;
        }
        if !plain && *byte == b'[' {
            return Ok(Err((at, Why::Class)));
        }
        let unit = (*byte, !plain && matches!(*byte, b'*' | b'?'));
        match group.take() {
            None => match *byte {
                b'{' if !plain => group = Some((at, vec![in alloc; Vec::new(alloc)]?)),
                b'}' if !plain => return Ok(Err((at, Why::Stray))),
                _ => forms = longer(alloc, forms.as_slice(), &[unit])?,
            },
            Some((brace, mut choices)) => match *byte {
                b'{' if !plain => return Ok(Err((at, Why::Nested))),
                b'}' if !plain => forms = product(alloc, forms.as_slice(), choices.as_slice())?,
                b',' if !plain => {
                    choices.push(Vec::new(alloc))?;
                    group = Some((brace, choices));
                }
                _ => {
                    let last = choices.pop().unwrap_or(Vec::new(alloc));
                    let last = longer(alloc, &[last], &[unit])?;
                    choices.extend(last)?;
                    group = Some((brace, choices));
                }
            },
        }
    }
    Ok(match (escape, group) {
        (Some(at), _) => Err((at, Why::Escape)),
        (None, Some((brace, _))) => Err((brace, Why::Unclosed)),
        (None, None) => Ok(forms),
    })
}

// Each front with each back behind it.
fn product(
    alloc: Global,
    fronts: &[Vec<Unit>],
    backs: &[Vec<Unit>],
) -> Result<Vec<Vec<Unit>>, AllocError> {
    let mut all = Vec::new(alloc);
    for back in backs {
        for whole in longer(alloc, fronts, back.as_slice())? {
            all.push(whole)?;
        }
    }
    Ok(all)
}

// Each front with the units behind it.
fn longer(
    alloc: Global,
    fronts: &[Vec<Unit>],
    units: &[Unit],
) -> Result<Vec<Vec<Unit>>, AllocError> {
    let mut all = Vec::new(alloc);
    for front in fronts {
        let mut whole = front.as_slice().to_vec(alloc)?;
        whole.extend_from_slice(units)?;
        all.push(whole)?;
    }
    Ok(all)
}

// Whether the components cover the parts, by trying each number of parts for a `**`.
fn path(form: &[&[Unit]], parts: &[&[u8]]) -> bool {
    let Some((first, later)) = form.split_first() else {
        return parts.is_empty();
    };
    if *first == [(b'*', true), (b'*', true)].as_slice() {
        for n in 0..=parts.len() {
            if path(later, &parts[n..]) {
                return true;
            }
        }
        return false;
    }
    match parts.split_first() {
        Some((part, rest)) => bytes(first, part) && path(later, rest),
        None => false,
    }
}

// Whether the units cover the bytes, by trying each number of bytes for a `*`.
fn bytes(units: &[Unit], text: &[u8]) -> bool {
    let Some((first, later)) = units.split_first() else {
        return text.is_empty();
    };
    if *first == (b'*', true) {
        for n in 0..=text.len() {
            if bytes(later, &text[n..]) {
                return true;
            }
        }
        return false;
    }
    match text.split_first() {
        Some((byte, rest)) => (*first == (b'?', true) || *first == (*byte, false))
            && bytes(later, rest),
        None => false,
    }
}
