//! The program `eraser`: replays a recorded trace and reports its races.
//!
//! `main` hands the words of its command line and the standard streams to [`command`], which returns the exit status. The
//! standard output of this toolchain keeps no byte back, so a byte whose write failed is never sent again.
#![tactic(auto)]

mod command;
mod merging;
mod meter;
mod places;
mod replaying;
mod traces;
mod until;

pub use command::command;
use er_binary::Decoded;
use er_device::Device;
use er_exit::{Fault, report_fault};
use std::env;
use std::io::{ErrorKind, IsTerminal};
use std::process::ExitCode;

fn words_of(rt: &HostRuntime) -> Result<Vec<String>, Fault> {
    match env::args(rt) {
        Ok(found) => found.collect(rt.alloc()).map_err(|_| Fault::Memory),
        Err(error) if error.kind() == ErrorKind::OutOfMemory => Err(Fault::Memory),
        Err(_) => Err(Fault::Arguments),
    }
}

fn main(rt: HostRuntime) -> ExitCode {
    let on_terminal = rt.stderr().is_terminal();
    let mut errors = Device::new(rt.stderr());
    let status = match words_of(&rt) {
        Ok(words) => {
            let status = command(
                &rt,
                words.as_slice(),
                &mut Device::new(Decoded::new(rt.alloc(), rt.stdin())),
                &mut Device::new(rt.stdout()),
                &mut errors,
                &mut Device::new(rt.stderr()),
                on_terminal,
            );
            drop(words);
            status
        }
        Err(fault) => report_fault(rt.alloc(), fault, &mut errors),
    };
    ExitCode::from(status)
}
