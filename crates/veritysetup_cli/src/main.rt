//! The program veritysetup: format, dump and verify, without the kernel.
#![tactic(auto)]

use std::process::ExitCode;
use veritysetup::{ErasingWriter, ShownProgress, run_program};

fn main(rt: HostRuntime) -> ExitCode {
    let progress = ShownProgress::new(&rt);
    let mut out = ErasingWriter::new(&progress, rt.stdout());
    let mut msgs = ErasingWriter::new(&progress, rt.stderr());
    ExitCode::from(run_program(&rt, &progress, &mut out, &mut msgs))
}
