//! A workload on threads of this program, and its line.
ghost use Rattle.std.specs.Prelude.{IfOk, IfErr};
ghost use Rattle.er_device.specs.Device.{inner_of};
ghost use Rattle.er_exit.specs.Demos.{IsDemo};
ghost use Rattle.er_exit.specs.Writes.{LeavesOutput};

use crate::faults::Fault;
use er_device::Device;
use er_gate::OpenGate;
use er_load::{Workload, run_workload};
use std::alloc::Global;
use std::io::Write;
use std::sync::Wait;
use std::thread::Threads;

/// Runs a workload and writes its line: its name, how many steps its threads made, and how many races there were. Returns the exit
/// status, which is 1 if there was a race and else 0.
pub fn run_demo<R: Threads + Wait + Sync, O: Write>(
    rt: &R,
    alloc: Global,
    workload: Workload,
    output: &mut Device<O>,
) -> Result<u8, Fault>
    ensures demo { IfOk result (IsDemo workload (O.contents (inner_of output.old)) (O.contents (inner_of output.new))) }
    ensures nothing { IfErr result (LeavesOutput (O.contents (inner_of output.old)) (O.contents (inner_of output.new))) }
{
    let run = run_workload(rt, alloc, workload, &OpenGate)?;
    let (name, steps, races) = (workload.name(), run.steps.len(), run.races());
    drop(run);
    let line = format!(in alloc; "{name}: steps {steps}, races {races}\n")?;
    match output.write_all(line.as_bytes()) {
        Ok(()) => Ok(u8::from(races > 0)),
        Err(_) => Err(Fault::Write),
    }
}
