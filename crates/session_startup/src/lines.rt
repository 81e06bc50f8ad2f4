// Lines of failures and of closes.
ghost use Rattle.std.specs.Prelude.{◌≡◌, ◌++◌, ◌∷◌, [], ℕ, List, OnOk, codes};
ghost use Rattle.nuc_base.specs.Faults.{HasCause};
ghost use Rattle.nuc_base.specs.declared.kinds.Outcome.{Outcome as Outcomes};
ghost use Rattle.edges.specs.Pieces.{WriteOutcome};
ghost use Rattle.device.specs.Devices.{device_view};
ghost use Rattle.status_text.specs.Words.{outcome_text};
ghost use Rattle.session_boots.specs.Lines.{closed_line, exit_text, failed_line, step_text};

use device::Device;
use edges::{EdgeFault, Sink, write_pieces};
use nuc_base::{Exit, Label, Name, Outcome, Step};
use session_boots::tell_exit;
use status_text::outcome_word;

/// The word that names a step in every line.
fn step_word(step: Step) -> &'static str
    ensures { result.now ≡ step_text step }
{
    match step {
        Step::Install => "install",
        Step::Run => "run",
        Step::Startup => "startup",
        Step::Shutdown => "shutdown",
        Step::Recover => "recover",
        Step::Bootstrap => "bootstrap",
    }
}

/// Prints which step ended, and how.
fn tell_end<K: Sink>(sink: &mut K, step: Step, exit: Exit) -> Result<(), EdgeFault>
    ensures line { WriteOutcome (K.held sink.old) (K.held sink.new) (step_text step ++ codes " " ++ exit_text exit ++ codes "\n") result }
    ensures cause { HasCause (K.faults sink.old) (K.faults sink.new) result }
    ensures quiet { OnOk result (K.faults sink.new ≡ K.faults sink.old) }
{
    write_pieces(sink, &[step_word(step), " "])?;
    tell_exit(sink, exit)
}

/// Prints that a step of a component failed.
pub(crate) fn tell_failed_step<K: Sink>(
    sink: &mut K,
    id: &Label,
    name: &Name,
    step: Step,
    exit: Exit,
) -> Result<(), EdgeFault>
    ensures line { WriteOutcome (K.held sink.old) (K.held sink.new) (failed_line id.now name.now step exit) result }
    ensures cause { HasCause (K.faults sink.old) (K.faults sink.new) result }
    ensures quiet { OnOk result (K.faults sink.new ≡ K.faults sink.old) }
{
    write_pieces(sink, &["failed ", id.as_str(), " ", name.as_str(), " "])?;
    tell_end(sink, step, exit)
}

/// Prints how a deployment closed, and the line's end.
fn tell_outcome<K: Sink>(sink: &mut K, outcome: Outcome) -> Result<(), EdgeFault>
    ensures line { WriteOutcome (K.held sink.old) (K.held sink.new) (outcome_text outcome ++ codes "\n") result }
    ensures cause { HasCause (K.faults sink.old) (K.faults sink.new) result }
    ensures quiet { OnOk result (K.faults sink.new ≡ K.faults sink.old) }
{
    write_pieces(sink, &[outcome_word(outcome), "\n"])
}

/// Prints that the deployment of this id closed so.
fn tell_closed<K: Sink>(sink: &mut K, id: &Label, outcome: Outcome) -> Result<(), EdgeFault>
    ensures line { WriteOutcome (K.held sink.old) (K.held sink.new) (closed_line id.now outcome) result }
    ensures cause { HasCause (K.faults sink.old) (K.faults sink.new) result }
    ensures quiet { OnOk result (K.faults sink.new ≡ K.faults sink.old) }
{
    write_pieces(sink, &["closed ", id.as_str(), " "])?;
    tell_outcome(sink, outcome)
}

/// Prints how the deployment closed that closed last.
pub(crate) fn tell_close<K: Sink>(sink: &mut K, device: &Device) -> Result<(), EdgeFault>
    ensures line { (closed : List (List ℕ × Outcomes)) → (id : List ℕ) → (outcome : Outcomes) → (device_view device.now).closed ≡ closed ++ (id, outcome) ∷ [] →
        WriteOutcome (K.held sink.old) (K.held sink.new) (closed_line id outcome) result }
    ensures cause { HasCause (K.faults sink.old) (K.faults sink.new) result }
    ensures quiet { OnOk result (K.faults sink.new ≡ K.faults sink.old) }
{
    match device.closed.as_slice().last() {
        Some(closed) => tell_closed(sink, &closed.0, closed.1),
        None => Ok(()),
    }
}
