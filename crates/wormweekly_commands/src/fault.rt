//! Why a command stops.
ghost use Rattle.std.specs.Prelude.{◌≡◌};
ghost use Rattle.wormweekly_commands.specs.Faults.{IsDeviceFault, kit_status, page_status, status_of, unread_status};

use crate::folder::{Unread, Unwritten};
use metric_exposure::ExposureFault;
use metric_io::Broken;
use metric_kit_commands::KitFault;
use metric_sheet::SheetFault;
use std::alloc::AllocError;

/// Which of its files a fault of a command is in.
#[derive(Clone, Copy, Debug, PartialEq, Eq, Drop)]
pub enum Role {
    /// The old catalogue of a comparison.
    OldCatalogue,
    /// The old config of a comparison.
    OldConfig,
    /// The catalogue.
    Catalogue,
    /// The config.
    Config,
    /// The certificate.
    Certificate,
    /// The changes that are accepted.
    Accepted,
    /// The script.
    Script,
    /// The queries of this number.
    Queries {
        /// The number of the file among those of queries.
        number: usize,
    },
    /// The code that is compared with what is made.
    Bound,
}

/// Why a replay prints no page.
#[derive(Clone, Copy, Debug, PartialEq, Eq, Drop)]
pub enum PageFault {
    /// The key of an attribute of the resource has no letter and no digit.
    BadLabel {
        /// The attribute.
        attribute: usize,
    },
    /// Two attributes of the resource have one label.
    LabelCollision {
        /// The attribute.
        attribute: usize,
        /// The first later one of the same label.
        other: usize,
    },
    /// The config has no reader of the name.
    NoReader,
    /// No reader is named, and none has a cumulative stream.
    NoneServed,
    /// No reader is named, and more than one has a cumulative stream.
    SeveralReaders,
    /// A server would not hold each sample of the reader.
    Exposure(ExposureFault),
}

/// Why a command stops.
#[derive(Clone, Copy, Drop)]
pub enum ConsoleFault {
    /// A file is not read.
    Unread {
        /// Which.
        role: Role,
        /// Why.
        cause: Unread,
    },
    /// The file to write to is one that is read.
    Overwrites {
        /// Which.
        role: Role,
    },
    /// The file to write to was not made.
    Unwritten {
        /// Why.
        cause: Unwritten,
    },
    /// The replay has no page.
    Page(PageFault),
    /// The fault that `metric_kit` has of the old files of a comparison.
    Old(KitFault),
    /// The fault that `metric_kit` has of the same parts.
    Kit(KitFault),
}

impl ConsoleFault {
    /// The exit status of a program that stops with the fault.
    pub fn status(&self) -> u8
        ensures { result ≡ status_of self.now }
    {
        match self {
            ConsoleFault::Unread { cause, .. } => unread_status(*cause),
            ConsoleFault::Overwrites { .. } => 2,
            ConsoleFault::Unwritten { .. } => 5,
            ConsoleFault::Page(fault) => page_status(*fault),
            ConsoleFault::Old(fault) => kit_status(*fault),
            ConsoleFault::Kit(fault) => kit_status(*fault),
        }
    }
}

// A file with a fault is told apart from files that can be read and are refused.
fn kit_status(fault: KitFault) -> u8
    ensures { result ≡ kit_status fault }
{
    match fault {
        KitFault::Read | KitFault::Input { .. } | KitFault::Catalogue(_) | KitFault::Config(_) => 3,
        KitFault::Certificate(_)
        | KitFault::Check(_)
        | KitFault::Make(_)
        | KitFault::Audit(_)
        | KitFault::Finish(_) => 1,
        KitFault::Memory => 4,
        KitFault::Write => 5,
    }
}

// A page that the files have no reader for is refused as they are; else the words are wrong.
fn page_status(fault: PageFault) -> u8
    ensures { result ≡ page_status fault }
{
    match fault {
        PageFault::NoneServed | PageFault::Exposure(_) => 1,
        PageFault::BadLabel { .. }
        | PageFault::LabelCollision { .. }
        | PageFault::NoReader
        | PageFault::SeveralReaders => 2,
    }
}

fn unread_status(cause: Unread) -> u8
    ensures { result ≡ unread_status cause }
{
    match cause {
        Unread::Memory => 4,
        Unread::Missing
        | Unread::Directory
        | Unread::Denied
        | Unread::TooLong
        | Unread::Unreadable
        | Unread::NotText
        | Unread::TooLarge => 3,
    }
}

impl From<KitFault> for ConsoleFault {
    ghost use Rattle.std.specs.Prelude.{◌≡◌};
    ghost use Rattle.wormweekly_commands.specs.declared.fault.ConsoleFault.TheVariants.{Kit};

    ghost from_gives = { λ fault console. console ≡ Kit fault };

    fn from(fault: KitFault) -> ConsoleFault {
        ConsoleFault::Kit(fault)
    }
}

impl From<AllocError> for ConsoleFault {
    ghost use Rattle.std.specs.Prelude.{◌≡◌};
    ghost use Rattle.metric_kit_commands.specs.declared.fault.KitFault.TheVariants.{Memory};
    ghost use Rattle.wormweekly_commands.specs.declared.fault.ConsoleFault.TheVariants.{Kit};

    ghost from_gives = { λ _ console. console ≡ Kit Memory };

    fn from(_refused: AllocError) -> ConsoleFault {
        ConsoleFault::Kit(KitFault::Memory)
    }
}

/// The fault of a table that was not written whole.
pub(crate) fn of_sheet(fault: SheetFault) -> KitFault
    ensures { IsDeviceFault result }
{
    match fault {
        SheetFault::Write => KitFault::Write,
        SheetFault::Memory => KitFault::Memory,
    }
}

/// The fault of a text that was not written whole.
pub(crate) fn of_device(_broken: Broken) -> KitFault
    ensures { IsDeviceFault result }
{
    KitFault::Write
}
