//! Worked patterns, faults and limits, and all short patterns against a slow program.
use super::{slow, *};
use std::process::Abort;
use std::test::Fail;

#[test]
fn worked_texts_fit_and_others_do_not(rt: HostRuntime) -> Result<(), Fail> {
    for (pattern, text, fits) in [
        ("*", "hello", true),
        ("*", "library/hello", false),
        ("a**b", "axyb", true),
        ("*a*b*c", "xaybzabc", true),
        ("*a*b*c", "xaybzab", false),
        ("a?b", "a/b", false),
        ("library/**", "library", true),
        ("library/**", "library/a/b", true),
        ("library/**", "libraryx", false),
        ("***", "a/b", false),
        ("**/x/y/**", "x/x/y", true),
        ("a/**/b", "a/x/y/b", true),
        ("a/**/b", "ab", false),
        ("x/{*,y}*", "x/a/b", true),
        ("x/\\**", "x/*a", true),
        ("v{1,2}?", "v10", true),
        ("v{1,2}?", "v3a", false),
        ("\\*\\?\\{\\}\\[\\]\\,\\\\", "*?{}[],\\", true),
        ("a,b]", "a,b]", true),
        ("{\\,,\\}}", "}", true),
        ("a{,b}c", "abbc", false),
        ("{a/b,c}/d", "c/d", true),
        ("{a,b}{c,d}{e,f}", "bcf", true),
        ("{a,b}{c,d}{e,f}", "bef", false),
        ("?", "é", false),
    ] {
        let read = Pattern::read(rt.alloc(), pattern.as_bytes())?;
        assert_eq!(rt; read.fits(text.as_bytes()), fits, "{pattern} on {text}");
    }
    Ok(())
}

#[test]
fn a_text_that_is_no_pattern_is_refused_at_its_first_fault(rt: HostRuntime) {
    for (text, at, why) in [
        ("a\\[b[", 4, Why::Class),
        ("{a,{b}}", 3, Why::Nested),
        ("ab{a,\\}", 2, Why::Unclosed),
        ("{a}b}", 4, Why::Stray),
        ("{a\\", 2, Why::Escape),
        ("}[", 0, Why::Stray),
        (
            "{a,b}{a,b}{a,b}{a,b}{a,b}{a,b}{a,b}{a,b}{a}{a,b}[",
            43,
            Why::Many,
        ),
        (
            "{a,b}{a,b}{a,b}{a,b}{a,b}{a,b}{a,b}{a,b}*?{,,}{",
            42,
            Why::Many,
        ),
    ] {
        let read = Pattern::read(rt.alloc(), text.as_bytes());
        assert_eq!(rt; read, Err(PatternRefused::At { at, why }), "{text}");
    }
}

#[test]
fn a_pattern_at_each_limit_is_read_and_one_byte_more_is_not(rt: HostRuntime) -> Result<(), Fail> {
    let alloc = rt.alloc();
    let full = vec![in alloc; b'a'; 1024]?;
    let more = vec![in alloc; b'['; 1025]?;
    let long = PatternRefused::At {
        at: 1024,
        why: Why::Long,
    };
    assert!(rt; Pattern::read(alloc, full.as_slice())?.fits(full.as_slice()));
    assert_eq!(rt; Pattern::read(alloc, more.as_slice()), Err(long));
    let pairs = "{a,b}{a,b}{a,b}{a,b}{a,b}{a,b}{a,b}{a,b}";
    assert!(rt; Pattern::read(alloc, pairs.as_bytes())?.fits(b"bbbbbbbb".as_slice()));
    Ok(())
}

#[test]
fn a_copy_is_equal_and_has_the_bytes_that_were_read(rt: HostRuntime) -> Result<(), Fail> {
    let text = [b'{', b'a', b',', b'\\', 0xff, b'}', b'?'];
    let read = Pattern::read(rt.alloc(), text.as_slice())?;
    let copy = read.copy(rt.alloc())?;
    assert_eq!(rt; copy.text(), text.as_slice());
    assert_eq!(rt; copy, read);
    assert!(rt; copy.fits([0xff, 0x80].as_slice()));
    assert_ne!(rt; copy, Pattern::read(rt.alloc(), b"{a,b}?".as_slice())?);
    Ok(())
}

#[test]
fn short_patterns_fit_and_are_refused_as_the_slow_program_says(
    rt: HostRuntime,
) -> Result<(), Fail> {
    for (signs, most, letters, longest) in [
        ("a*?/{,}\\[", 4, "ab/", 3),
        ("a*/", 6, "a/", 5),
        ("ab*", 6, "ab", 6),
    ] {
        let patterns = texts(rt.alloc(), signs.as_bytes(), most)?;
        let names = texts(rt.alloc(), letters.as_bytes(), longest)?;
        for pattern in patterns.as_slice() {
            compare(&rt, rt.alloc(), pattern.as_slice(), names.as_slice())?;
        }
    }
    Ok(())
}

// Compares a pattern's refusal, or its fit on each name, with the slow program.
fn compare(rt: &impl Abort, alloc: Global, pattern: &[u8], names: &[Vec<u8>]) -> Result<(), Fail> {
    let read = Pattern::read(alloc, pattern);
    let forms = match slow::forms(alloc, pattern)? {
        Ok(forms) => forms,
        Err((at, why)) => {
            let at = u32::try_from(at)?;
            assert_eq!(rt; read, Err(PatternRefused::At { at, why }), "{pattern:?}");
            return Ok(());
        }
    };
    let read = read?;
    for name in names {
        let want = slow::fits(alloc, forms.as_slice(), name.as_slice())?;
        assert_eq!(rt; read.fits(name.as_slice()), want, "{pattern:?} on {name:?}");
    }
    Ok(())
}

// Each text of at most so many of these letters.
fn texts(alloc: Global, letters: &[u8], longest: usize) -> Result<Vec<Vec<u8>>, Fail> {
    let mut all = vec![in alloc; Vec::new(alloc)]?;
    let mut level = vec![in alloc; Vec::new(alloc)]?;
    for _ in 0..longest {
        let mut next = Vec::new(alloc);
        for text in level.as_slice() {
            for letter in letters {
                let mut more: Vec<u8> = text.as_slice().to_vec(alloc)?;
                more.push(*letter)?;
                next.push(more.as_slice().to_vec(alloc)?)?;
                all.push(more)?;
            }
        }
        level = next;
    }
    Ok(all)
}
