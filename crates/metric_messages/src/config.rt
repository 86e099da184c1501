//! The faults of a config's text.
ghost use Rattle.std.specs.Prelude.{◌≡◌, IfOk};
ghost use Rattle.metric_messages.specs.Marks.{StandsInConfig};

use crate::diagnosis::Diagnosis;
use crate::sources::NamedText;
use crate::spot::{Spot, TableFault, diagnose};
use crate::toml_fault::MEMORY;
use metric_views::ViewFault;
use std::alloc::{AllocError, Global};

/// What a person is told of a fault of a config's text: the place of its field, and what is wrong with it. Of another
/// text or another fault than `Config::read` answers of it the words may be less exact. Fails only when out of memory.
pub fn diagnose_config<'t>(
    alloc: Global,
    source: NamedText<'t>,
    fault: ViewFault,
) -> Result<Diagnosis<'t, ViewFault>, AllocError>
    ensures fault { IfOk result (λ told. told.fault ≡ fault) }
    ensures file { IfOk result (λ told. told.file.now ≡ source.entry.name.now) }
    ensures place { IfOk result (λ told.
        StandsInConfig source.entry.text.now fault told.position) }
{
    let spot = match fault {
        ViewFault::NotToml => Spot::Text,
        ViewFault::At(defect, spot) => Spot::Table(TableFault::Config(defect, spot)),
        ViewFault::Memory => Spot::Nowhere(MEMORY),
    };
    diagnose(alloc, source, fault, spot)
}
