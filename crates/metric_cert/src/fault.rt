//! Why a text is no certificate.
ghost use Rattle.std.specs.Prelude.{◌≡◌};
ghost use Rattle.metric_cert.specs.Places.{at, list_name};
ghost use Rattle.metric_cert.specs.Reading.{shape_faults};

use metric_table::FieldFaults;
use std::alloc::AllocError;
use thiserror::Error;

/// A list of a certificate.
#[derive(Clone, Copy, Debug, PartialEq, Eq, Drop)]
pub enum CertList {
    /// The reasons.
    Reason,
    /// The streams.
    Stream,
    /// The bounds.
    Bound,
    /// The orders.
    Order,
}

impl CertList {
    /// The name in files.
    pub fn name(&self) -> &'static str
        ensures { result.now ≡ list_name self.now }
    {
        match self {
            CertList::Reason => "reason",
            CertList::Stream => "stream",
            CertList::Bound => "bound",
            CertList::Order => "order",
        }
    }
}

/// The table of a certificate whose shape is wrong.
#[derive(Clone, Copy, Debug, PartialEq, Eq, Drop)]
pub enum CertPlace {
    /// The certificate as a whole: its fields, its format, or a list that is none.
    Top,
    /// A table of a list.
    Entry {
        /// The list.
        list: CertList,
        /// The number of the table in it.
        number: usize,
    },
}

/// Why a text is no certificate.
#[derive(Clone, Copy, Debug, PartialEq, Eq, Drop, Error)]
pub enum CertFault {
    /// The text is no TOML.
    #[error("1 NotToml")]
    NotToml,
    /// A table is not that of a certificate, and is the first that is not.
    #[error("2 Shape")]
    Shape(CertPlace),
    /// Out of memory.
    #[error("3 Memory")]
    Memory,
}

impl From<AllocError> for CertFault {
    ghost use Rattle.std.specs.Prelude.{◌≡◌};
    ghost use Rattle.metric_cert.specs.declared.fault.CertFault.TheVariants.{Memory};

    ghost from_gives = { λ _ fault. fault ≡ Memory };

    fn from(_refused: AllocError) -> CertFault {
        CertFault::Memory
    }
}

impl CertFault {
    /// The same fault, of the table of this place.
    pub(crate) fn at(self, place: CertPlace) -> CertFault
        ensures { result ≡ at place self }
    {
        match self {
            CertFault::Shape(_) => CertFault::Shape(place),
            CertFault::NotToml => CertFault::NotToml,
            CertFault::Memory => CertFault::Memory,
        }
    }
}

// A fault of the shape, of the certificate as a whole.
pub(crate) const MISSHAPEN: CertFault = CertFault::Shape(CertPlace::Top);

/// Every fault of a field is one of the table's shape.
pub(crate) fn shape_faults() -> FieldFaults<CertFault>
    ensures { result ≡ shape_faults }
{
    FieldFaults {
        missing: MISSHAPEN,
        wrong_kind: MISSHAPEN,
        unknown: MISSHAPEN,
        too_many: MISSHAPEN,
        memory: CertFault::Memory,
    }
}
