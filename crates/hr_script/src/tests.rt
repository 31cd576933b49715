use super::*;
use std::alloc::Global;
use std::test::Fail;

// What is read of a text.
fn read(alloc: Global, text: &[u8]) -> Result<Lines, Fail> {
    if text.len() > SCRIPT_LIMIT {
        return Err("the text is too long".into());
    }
    Ok(read_lines(alloc, text)?)
}

#[test]
fn each_kind_of_line_is_read(rt: HostRuntime) -> Result<(), Fail> {
    let text = b"# one\nimage 8 library/app v1.2 7b7d 00ff\n\nindex 1 app all a _b\norphan 2 app\n\
        manifest 1 app t m {\"a\": 1,  \"b\":2 }\nbreak 1 app 00ff 7b7d\nfault 0 2 1\n\
        lands 0 2 4294967295\nchange 0 1 3 app all new\njobs 1\njobs 262144\ntrigger 4294967295\n\
        take\nstep 1\nsettle 4294967295\nstop 0\ndeliver 0\nforge 0 3 Pending\n\
        forge 4294967295 0 Success\nwait 1000000000\nsweep 4294967295\nfinish\ntags 8\nrow 0\n\
        exec 4294967295\nword 4294967295 3\ncause 1";
    let Lines { lines, fault } = read(rt.alloc(), text)?;
    assert_eq!(rt; fault, None);
    assert_eq!(rt; lines.view().len(), 26);
    Ok(())
}

// Why each of these texts is refused, and at which line.
fn refusals() -> [(&'static [u8], u32, Why); 97] {
    [
        (b"images 1 app t", 1, Why::Word),
        (b"Image 1 app t", 1, Why::Word),
        (b" image 1 app t", 1, Why::Word),
        (b" ", 1, Why::Word),
        (b"\r\n", 1, Why::Word),
        (b"finish\r\n", 1, Why::Word),
        (b"lanes", 1, Why::NotYet),
        (b"due", 1, Why::NotYet),
        (b"conflict", 1, Why::NotYet),
        (b"finish\nimage 9 A", 2, Why::Order),
        (b"finish\nlabel 9 A", 2, Why::NotYet),
        (b"tags 1\nindex", 2, Why::Order),
        (b"trigger 1\n\norphan 1 app", 3, Why::Order),
        (b"trigger 1\nmanifest 1 app t m x", 2, Why::Order),
        (b"take\nbreak 9 A", 2, Why::Order),
        (b"step 1\nfault", 2, Why::Order),
        (b"stop 1\nlands x", 2, Why::Order),
        (b"cause 1\nchange 0 1", 2, Why::Order),
        (b"image 9 A", 1, Why::Count),
        (b"image", 1, Why::Count),
        (b"index 1 app", 1, Why::Count),
        (b"orphan 9", 1, Why::Count),
        (b"manifest 1 a t m", 1, Why::Count),
        (b"manifest 9 A", 1, Why::Count),
        (b"break 1 app 7b", 1, Why::Count),
        (b"fault 1 1 1 1", 1, Why::Count),
        (b"lands x 1", 1, Why::Count),
        (b"change 9 1 1 app t", 1, Why::Count),
        (b"take ", 1, Why::Count),
        (b"step", 1, Why::Count),
        (b"cause 1 1", 1, Why::Count),
        (b"word x", 1, Why::Count),
        (b"trigger", 1, Why::Count),
        (b"trigger x 1", 1, Why::Count),
        (b"finish 1", 1, Why::Count),
        (b"finish ", 1, Why::Count),
        (b"tags 9 9", 1, Why::Count),
        (b"image 0 app v1", 1, Why::Number),
        (b"image 9 A -x 7", 1, Why::Number),
        (b"index 01 A -x -x", 1, Why::Number),
        (b"image  app v1", 1, Why::Number),
        (b"break 9 A 7 7", 1, Why::Number),
        (b"fault x 1 1", 1, Why::Number),
        (b"fault 1 9 0", 1, Why::NotYet),
        (b"change 4294967295 1 1 app t t", 1, Why::NotYet),
        (b"fault 0 9 0", 1, Why::Number),
        (b"lands 0 1 0", 1, Why::Number),
        (b"change 4294967296 1 1 app t t", 1, Why::Number),
        (b"stop 4294967296", 1, Why::Number),
        (b"word 1 4", 1, Why::Number),
        (b"trigger 4294967296", 1, Why::Number),
        (b"trigger 99999999999999999999999", 1, Why::Number),
        (b"trigger 01", 1, Why::Number),
        (b"trigger +1", 1, Why::Number),
        (b"trigger ", 1, Why::Number),
        (b"tags 9", 1, Why::Number),
        (b"tags 257", 1, Why::Number),
        (b"image 1 library/Hello v1 7b7d", 1, Why::Name),
        (b"orphan 1 Hello 7", 1, Why::Name),
        (b"manifest 1  t m x", 1, Why::Name),
        (b"change 0 1 1 A -x -x", 1, Why::Name),
        (b"change 0 1 1 app x -x", 1, Why::Tag),
        (b"image 1 app -x 7", 1, Why::Tag),
        (b"index 1 app t a -x", 1, Why::Tag),
        (b"break 1 app 7b 7", 1, Why::Hex),
        (b"break 1 app  7b", 1, Why::Hex),
        (b"image 1 app t 7", 1, Why::Hex),
        (b"image 1 app t 7B", 1, Why::Hex),
        (b"image 1 app t 7b ", 1, Why::Hex),
        (b"orphan 1 app 7b\r\n", 1, Why::Hex),
        (b"manifest 1 app t \"m x", 1, Why::Policy),
        (b"manifest 1 app -t \\m x", 1, Why::Tag),
        (b"finish\njobs x", 2, Why::Order),
        (b"jobs", 1, Why::Count),
        (b"jobs 0 1", 1, Why::Count),
        (b"jobs 0", 1, Why::Number),
        (b"jobs 262145", 1, Why::Number),
        (b"settle", 1, Why::Count),
        (b"deliver 1 x", 1, Why::Count),
        (b"forge x 9", 1, Why::Count),
        (b"wait x x", 1, Why::Count),
        (b"sweep 1 ", 1, Why::Count),
        (b"row", 1, Why::Count),
        (b"exec 1 1", 1, Why::Count),
        (b"settle x", 1, Why::Number),
        (b"deliver 4294967296", 1, Why::Number),
        (b"sweep 01", 1, Why::Number),
        (b"row +1", 1, Why::Number),
        (b"exec 4294967296", 1, Why::Number),
        (b"wait 1000000001", 1, Why::Number),
        (b"wait ", 1, Why::Number),
        (b"forge x 9 no", 1, Why::Number),
        (b"forge 1 4 no", 1, Why::Number),
        (b"forge 1 0 running", 1, Why::Policy),
        (b"forge 1 3 Unopened", 1, Why::Policy),
        (b"forge 1 0 ", 1, Why::Policy),
        (b"forge 1 0 Succeed", 1, Why::Policy),
    ]
}

#[test]
fn each_bad_line_is_refused_for_its_first_reason(rt: HostRuntime) -> Result<(), Fail> {
    for (text, line, why) in refusals() {
        let fault = Some(Fault { line, why });
        assert_eq!(rt; read(rt.alloc(), text)?.fault, fault, "{text:?}");
    }
    Ok(())
}
