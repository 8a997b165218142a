//! Puts a line out as a whole, and tells want of memory from a failing output.

ghost use Rattle.std.specs.Prelude.{true, ◌≡◌, ◌≢◌, ◌⊎◌, [], ◌∷◌, ◌++◌, Err, IfErr, OnOk};
ghost use Rattle.zr_pipe.specs.Faults.{Rose};
ghost use Rattle.std.specs.Io.KnownBytes.{append_known};
ghost use Rattle.zr_pipe.specs.Ends.{WroteFront};
ghost use Rattle.zr_top.specs.Records.{fault_line, Wrote, WroteAllOrNothing, WroteFrontOf, WroteText};
ghost use Rattle.zr_top.specs.Status.{is_unrun, Printed};
ghost use Rattle.zr_jobfile.specs.declared.JobFault.TheVariants.{NoMemory as OutOfMemory};

use crate::status::Status;
use zr_jobfile::JobFault;
use zr_pipe::{PutFault, Sink};

/// Writes some bytes.
#[tactic(auto, using(crate::proofs::Fronts::front_whole))]
fn put<S: Sink>(out: &mut S, text: &[u8]) -> Result<(), Status>
    ensures fault { IfErr result
        (λ status. (status ≡ Status.Unwritable) ⊎ (status ≡ Status.OutOfMemory)) }
    ensures cause { result ≡ Err Status.Unwritable → Rose (S.faults out.old) (S.faults out.new) }
    ensures written { OnOk result (S.written out.new ≡ append_known (S.written out.old) text.now) }
    ensures front { WroteFront (S.written out.old) (S.written out.new) text.now }
    ensures whole { WroteAllOrNothing (S.faults out.old) (S.faults out.new)
        (S.written out.old) (S.written out.new) text.now }
{
    match out.put(text) {
        Ok(()) => Ok(()),
        Err(PutFault::Failed) => Err(Status::Unwritable),
        Err(PutFault::NoMemory) => Err(Status::OutOfMemory),
    }
}

/// Prints a line with its newline and gives the status, or the fault of the output. Want of memory is told first, whatever
/// became of the line.
pub fn print<S: Sink>(out: &mut S, line: &str, status: Status) -> Status
    requires { status ≢ Status.Unwritable }
    ensures printed { Printed status result }
    ensures memory_first { status ≡ Status.OutOfMemory → result ≡ Status.OutOfMemory }
    ensures wrote { WroteText result (S.written out.old) (S.written out.new) line.now }
    ensures front { WroteFront (S.written out.old) (S.written out.new) line.now }
    ensures whole { WroteAllOrNothing (S.faults out.old) (S.faults out.new)
        (S.written out.old) (S.written out.new) line.now }
    ensures cause { result ≡ Status.Unwritable → Rose (S.faults out.old) (S.faults out.new) }
{
    match put(out, line.as_bytes()) {
        Ok(()) => status,
        Err(_) if status == Status::OutOfMemory => status,
        Err(fault) => fault,
    }
}

/// Prints why a job file is refused.
pub fn refuse<S: Sink>(out: &mut S, fault: JobFault) -> Status
    ensures refused { fault ≢ OutOfMemory → Printed Status.JobFile result }
    ensures memory { fault ≡ OutOfMemory → result ≡ Status.OutOfMemory }
    ensures cause { result ≡ Status.Unwritable → Rose (S.faults out.old) (S.faults out.new) }
    ensures unrun { is_unrun result ≡ true }
    ensures wrote { Wrote result (S.written out.old) (S.written out.new) (fault_line fault) }
    ensures front { fault ≢ OutOfMemory
        → WroteFrontOf (S.written out.old) (S.written out.new) (fault_line fault) }
    ensures whole { fault ≢ OutOfMemory → WroteAllOrNothing (S.faults out.old) (S.faults out.new)
        (S.written out.old) (S.written out.new) (fault_line fault ++ 10 ∷ []) }
    ensures silent { fault ≡ OutOfMemory → S.written out.new ≡ S.written out.old }
{
    match fault {
        JobFault::TooManyBytes => print(out, "job file: TooMany Bytes\n", Status::JobFile),
        JobFault::NotToml => print(out, "job file: NotToml\n", Status::JobFile),
        JobFault::NotBuilt => print(out, "job file: NotBuilt\n", Status::JobFile),
        JobFault::NoMemory => Status::OutOfMemory,
    }
}
