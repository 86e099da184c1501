//! The faults of a catalogue's text.
ghost use Rattle.std.specs.Prelude.{◌≡◌, IfOk};
ghost use Rattle.metric_messages.specs.Marks.{StandsInCatalogue};

use crate::diagnosis::Diagnosis;
use crate::sources::NamedText;
use crate::spot::{Spot, TableFault, diagnose};
use crate::toml_fault::MEMORY;
use metric_catalogue::CatalogueFault;
use std::alloc::{AllocError, Global};

/// What a person is told of a fault of a catalogue's text: the place of its field, and what is wrong with it. Of
/// another text or another fault than `Catalogue::open` or `read` answers of it the words may be less exact. Fails only
/// when out of memory.
pub fn diagnose_catalogue<'t>(
    alloc: Global,
    source: NamedText<'t>,
    fault: CatalogueFault,
) -> Result<Diagnosis<'t, CatalogueFault>, AllocError>
    ensures fault { IfOk result (λ told. told.fault ≡ fault) }
    ensures file { IfOk result (λ told. told.file.now ≡ source.entry.name.now) }
    ensures place { IfOk result (λ told.
        StandsInCatalogue source.entry.text.now fault told.position) }
{
    let spot = match fault {
        CatalogueFault::NotToml => Spot::Text,
        CatalogueFault::At(defect, spot) => Spot::Table(TableFault::Catalogue(defect, spot)),
        CatalogueFault::Memory => Spot::Nowhere(MEMORY),
    };
    diagnose(alloc, source, fault, spot)
}
