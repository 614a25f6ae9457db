//! An outcome, and what shows it.
ghost use Rattle.std.specs.Prelude.{◌≡◌};
ghost use Rattle.architecture_outcomes.specs.Outcomes.{of_witness};

use exploration_text::explorer::Realisation;
use trace_recorder::Trace;
use witnesses::Witness;
use witnesses::flat_model::HartResult;

/// Who comes to an outcome, and by what.
#[derive(Drop)]
pub enum Way {
    /// The machine: the events that bring it there, or why there are none.
    Machine(Realisation),
    /// A run that the memory model allows, and no schedule of the machine.
    ModelAlone(Trace),
    /// A run that the memory model allows. The machine may come there too: its own search isn't complete.
    Model(Trace),
}

/// An outcome that the memory model allows.
#[derive(Drop)]
pub struct Outcome {
    /// Each hart's status and the numbers that it put out, by hart.
    pub harts: Vec<HartResult>,
    /// The words of memory, in the order of their asking.
    pub words: Vec<u32>,
    pub way: Way,
}

impl Outcome {
    /// The outcome of a witness, to which the machine doesn't come as far as it was searched, with these words.
    pub(crate) fn beyond(witness: Witness, words: Vec<u32>, is_complete: bool) -> Outcome
        ensures { result ≡ of_witness is_complete words witness }
    {
        let Witness { harts, trace } = witness;
        let way = if is_complete {
            Way::ModelAlone(trace)
        } else {
            Way::Model(trace)
        };
        Outcome { harts, words, way }
    }
}
