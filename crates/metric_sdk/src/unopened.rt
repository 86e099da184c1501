//! Why texts are not opened, in words for people.
ghost use Rattle.std.specs.Prelude.{◌≡◌, Err, IfErr, IfOk, Ok};

use metric_catalogue::Catalogue;
use metric_make::MakeFault;
use metric_messages::{NamedText, Pair, diagnose_catalogue, diagnose_config, diagnose_make};
use metric_setup::SetupFault;
use metric_views::Config;
use std::alloc::Global;
use std::fmt;

/// Why a catalogue and a config were not opened, in words: the file, the line and the column where they are found, and
/// the cause.
#[derive(Drop)]
pub struct Unopened {
    /// The fault, as it was answered.
    pub fault: SetupFault,
    // Nothing where memory ran out for them.
    words: Option<String>,
}

/// What was opened of these two, the catalogue first, or the fault in words.
pub fn diagnosed<T>(
    alloc: Global,
    texts: [NamedText<'_>; 2],
    opened: Result<T, SetupFault>,
) -> Result<T, Unopened>
    ensures ok { IfOk result (λ own. opened ≡ Ok own) }
    ensures err { IfErr result (λ left. opened ≡ Err left.fault) }
{
    match opened {
        Ok(opened) => Ok(opened),
        Err(fault) => {
            let words = words_of(alloc, texts, fault);
            Err(Unopened { fault, words })
        }
    }
}

fn words_of(alloc: Global, texts: [NamedText<'_>; 2], fault: SetupFault) -> Option<String> {
    let [catalogue, config] = texts;
    match fault {
        SetupFault::Catalogue(fault) => {
            let message = diagnose_catalogue(alloc, catalogue, fault).ok()?;
            format!(in alloc; "{message}").ok()
        }
        SetupFault::Config(fault) => {
            let message = diagnose_config(alloc, config, fault).ok()?;
            format!(in alloc; "{message}").ok()
        }
        SetupFault::Unsafe(fault) => words_of_make(alloc, catalogue, config, fault),
        fault => format!(in alloc; "{fault}").ok(),
    }
}

// Of two texts that are read, and not safe together.
fn words_of_make(
    alloc: Global,
    catalogue_source: NamedText<'_>,
    config_source: NamedText<'_>,
    fault: MakeFault,
) -> Option<String> {
    let catalogue = Catalogue::read(alloc, catalogue_source.text).ok()?;
    let config = Config::read(alloc, config_source.text).ok()?;
    let pair = Pair {
        catalogue: &catalogue,
        catalogue_source,
        config: &config,
        config_source,
    };
    let message = diagnose_make(alloc, pair, fault).ok()?;
    format!(in alloc; "{message}").ok()
}

impl fmt::Display for Unopened {
    fn fmt<W: fmt::Write>(&self, f: &mut fmt::Formatter<W>) -> fmt::Result {
        match &self.words {
            Some(words) => f.write_str(words.as_str()),
            None => write!(f, "{}", self.fault),
        }
    }
}

impl fmt::Debug for Unopened {
    fn fmt<W: fmt::Write>(&self, f: &mut fmt::Formatter<W>) -> fmt::Result {
        write!(f, "{self}")
    }
}

impl std::error::Error for Unopened {}
