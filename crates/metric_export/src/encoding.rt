//! What a batch is as bytes.
ghost use Rattle.std.specs.Prelude.{◌≡◌, ◌++◌, ℕ, Bool, true, List, OnOk};
ghost use Rattle.metric_export.specs.Exports.{plan_text};
ghost use Rattle.metric_history.specs.declared.batch.Batch.{Batch};
ghost use Rattle.metric_plan.specs.Plans.{PlanValue};

use metric_history::Batch;
use metric_lines::push_batch;
use metric_plan::Plan;
use std::alloc::{AllocError, Global};

/// What a batch is as bytes. What is proved of exporters that write to a sink holds of every encoding.
///
/// Contracts see the bytes of a batch of a plan, and whose batches it is made for.
pub trait Encoding {
    // The bytes of a batch of a plan.
    ghost text: { Self → PlanValue → Batch → List ℕ };

    // Whether it is made for the batches of a reader, by the plan's fingerprint and the reader's number.
    ghost takes: { Self → ℕ → ℕ → Bool } = { λ _ _ _. true };

    /// Whether it is made for the batches of a reader. One for any answers `true`, and leaves the ghost `takes` as it
    /// is. An exporter in this encoding refuses the batches of another reader.
    fn takes(&self, plan: u64, reader: u32) -> bool
        ensures { result ≡ takes self.now plan reader };

    /// Puts the bytes of a batch of the plan last. Fails only when out of memory, and some of them may then be there.
    fn push(
        &self,
        alloc: Global,
        out: &mut Vec<u8>,
        plan: &Plan,
        batch: &Batch,
    ) -> Result<(), AllocError>
        ensures { OnOk result
            (out.new.items ≡ out.old.items ++ text self.now plan.now batch.now) };
}

/// The project's own text of a batch (`docs/FORMATS.md`, section 5).
#[derive(Clone, Copy, Debug, PartialEq, Eq, Drop)]
pub struct Plain;

impl Encoding for Plain {
    ghost text = { λ _. plan_text };

    fn takes(&self, _plan: u64, _reader: u32) -> bool {
        true
    }

    fn push(
        &self,
        _alloc: Global,
        out: &mut Vec<u8>,
        plan: &Plan,
        batch: &Batch,
    ) -> Result<(), AllocError> {
        push_batch(out, plan.catalogue(), plan.config(), plan.streams(), batch)
    }
}
