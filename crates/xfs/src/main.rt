//! The program: hands the system to what it does (`xfs_program`).
#![tactic(auto)]

use std::process::ExitCode;
use xfs_files::FileLibrary;
use xfs_program::perform;
use xfs_system::over_streams;

fn main(rt: HostRuntime) -> ExitCode {
    let mut environment = over_streams(FileLibrary::new(&rt), rt.stdin(), rt.stdout(), rt.stderr());
    perform(&rt, rt.alloc(), &mut environment)
}
