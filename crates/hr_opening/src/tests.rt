//! A script that is opened once, with ample memory.

use crate::{open_script, plan};
use hr_script::read_lines;
use std::test::Fail;

#[test]
fn a_script_opens_its_registries_in_order(rt: HostRuntime) -> Result<(), Fail> {
    let text =
        b"image 1 a/b one aa\nindex 1 a/b both one\nbreak 1 a/b aa bb\nlands 0 2 4\nchange 0 1 3 a/b new one\njobs 9\njobs 7\ntrigger 1\n";
    let read = read_lines(rt.alloc(), text)?;
    let opened = open_script(rt.alloc(), read.lines)?;
    let regs = opened.regs.view();
    assert_eq!(rt; regs.len(), 8);
    let planned = plan(rt.alloc(), &regs[0])?.ok_or("too long")?;
    assert_eq!(rt; planned.view().len(), 1, "the one repository");
    assert_eq!(rt;
        plan(rt.alloc(), &regs[1])?.ok_or("too long")?.view().len(),
        0
    );
    assert_eq!(rt; opened.events.view().len(), 1, "the trigger");
    assert_eq!(rt; opened.jobs, 7, "the last counts");
    Ok(())
}
