//! The program `fsverity`: file digests without the kernel (fsverity(1)).
#![tactic(auto)]

use fsverity::{ErasingWriter, ShownProgress, run_program};
use std::process::ExitCode;

fn main(rt: HostRuntime) -> ExitCode {
    let progress = ShownProgress::new(&rt);
    let mut out = ErasingWriter::new(&progress, rt.stdout());
    let mut msgs = ErasingWriter::new(&progress, rt.stderr());
    ExitCode::from(run_program(&rt, &progress, &mut out, &mut msgs))
}
