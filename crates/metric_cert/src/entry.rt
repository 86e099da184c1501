//! What stands in a certificate, read and written.
ghost use Rattle.std.specs.Prelude.{◌≡◌, Ok, IfOk};
ghost use Rattle.toml.specs.View.{view};
ghost use Rattle.metric_base.specs.Steps.{Gives};
ghost use Rattle.metric_cert.specs.Writing.{IsPrintable};

use crate::fault::CertFault;
use std::alloc::{AllocError, Global};
use toml::Value;

/// A kind of entry of a certificate. What is written is read as itself. It is no type that crates above see: they would
/// all carry what TOML's values are.
pub(crate) trait EntryKind {
    ghost use Rattle.std.specs.Prelude.{ℕ, Result};
    ghost use Rattle.toml.specs.Data.{Data};
    ghost use Rattle.metric_cert.specs.declared.fault.CertFault.{CertFault as Fault};

    /// What such an entry stands for.
    type Read: Drop;

    // What a value is read as.
    ghost step: { Data → Result Self.Read Fault };

    // How deep lists and tables nest in what is written.
    ghost levels: { ℕ };

    /// What the value stands for, or `Shape`.
    fn read(alloc: Global, value: &Value) -> Result<Self::Read, CertFault>
        ensures { Gives CertFault.Memory result (step (view value.now)) };

    /// A value that stands for it. Fails only when out of memory.
    fn write(alloc: Global, entry: &Self::Read) -> Result<Value, AllocError>
        ensures reads { IfOk result (λ v. step (view v) ≡ Ok entry.now) }
        ensures printable { IfOk result (λ v. IsPrintable levels (view v)) };
}
