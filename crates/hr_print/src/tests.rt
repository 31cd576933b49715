//! Answers are printed, where there is ample memory. That their texts are right is proved.

use crate::print_all;
use hr_base::{ExecNo, JobNo, Moment, PolicyNo, RegNo, Status};
use hr_digest::Digest;
use hr_event::{Cause, ExecStatus, ExecView, Told, Trigger, What};
use std::test::Fail;

#[test]
fn a_copied_blob_an_error_and_an_execution_have_their_lines(rt: HostRuntime) -> Result<(), Fail> {
    let told = [
        Told::Did {
            job: JobNo(1),
            what: What::GotBlob {
                digest: Digest::of(b"{}"),
                len: 2,
            },
        },
        Told::Ended {
            job: JobNo(1),
            status: Status::Error,
            cause: Some(Cause::Fault {
                reg: RegNo(1),
                before: 0,
                after: 1,
            }),
        },
        Told::ExecIs {
            view: ExecView {
                exec: ExecNo(1),
                policy: PolicyNo(1),
                trigger: Trigger::Manual,
                began: Moment(0),
                status: ExecStatus::Failed,
                total: 1,
                succeed: 0,
                failed: 1,
                in_progress: 0,
                stopped: 0,
            },
        },
    ];
    let lines = b"job 1 copied \
        sha256:44136fa355b3678a1146ad16f7e8649e94fb4fc21fe77e8310c060f61caaff8a 2\n\
        job 1 ended Error fault 1 0 1\n\
        execution 1 Failed total 1 succeed 0 failed 1 in_progress 0 stopped 0\n";
    let text = print_all(rt.alloc(), &told)?;
    assert_eq!(rt; text.view(), lines.as_slice());
    Ok(())
}
