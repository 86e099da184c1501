//! What a host is told of a fault of its texts.
ghost use Rattle.std.specs.Prelude.{◌≡◌, ◌≢◌, ◌++◌, Some, IfOk, OnOk};
ghost use Rattle.std.specs.String.{string_bytes};
ghost use Rattle.wormweekly_c.specs.Telling.{IsUnsafeAt, Tells, TellsFault, place_text, told_at};

use crate::pairs::{catalogue_source, certificate_source, config_source, declared_of, pair_of};
use metric_lint::Position;
use metric_make::MakeFault;
use metric_messages::{
    Diagnosis, diagnose_catalogue, diagnose_certificate, diagnose_check, diagnose_config,
    diagnose_make,
};
use metric_setup::SetupFault;
use metric_text::{push_numbered, push_text};
use std::alloc::{AllocError, Global};

/// The text of a fault of a catalogue, a config and, where there is one, a certificate. There is none for out of
/// memory.
pub(crate) fn fault_message(
    alloc: Global,
    catalogue: &str,
    config: &str,
    certificate: &str,
    fault: SetupFault,
) -> Result<Vec<u8>, AllocError>
    ensures known { OnOk result (fault ≢ SetupFault.Memory) }
    ensures told { IfOk result (λ text.
        TellsFault catalogue.now config.now fault text.items) }
{
    match fault {
        SetupFault::Catalogue(fault) => {
            let told = diagnose_catalogue(alloc, catalogue_source(catalogue), fault)?;
            written(alloc, &told)
        }
        SetupFault::Config(fault) => {
            let told = diagnose_config(alloc, config_source(config), fault)?;
            written(alloc, &told)
        }
        SetupFault::Unsafe(fault) => unsafe_message(alloc, catalogue, config, fault),
        SetupFault::Certificate(fault) => {
            let told = diagnose_certificate(alloc, certificate_source(certificate), fault)?;
            written(alloc, &told)
        }
        SetupFault::Check(fault) => {
            let told = diagnose_check(alloc, certificate_source(certificate), fault)?;
            written(alloc, &told)
        }
        SetupFault::Memory => Err(AllocError),
    }
}

fn unsafe_message(
    alloc: Global,
    catalogue: &str,
    config: &str,
    fault: MakeFault,
) -> Result<Vec<u8>, AllocError>
    ensures { IfOk result (λ text. Tells (IsUnsafeAt catalogue.now config.now fault) text.items) }
{
    match fault {
        MakeFault::Memory => Err(AllocError),
        _ => part_message(alloc, catalogue, config, fault),
    }
}

// The text of a part of safety that fails. Both texts were read before, so that they fail only when out of memory.
fn part_message(
    alloc: Global,
    catalogue: &str,
    config: &str,
    fault: MakeFault,
) -> Result<Vec<u8>, AllocError>
    requires { fault ≢ MakeFault.Memory }
    ensures { IfOk result (λ text. Tells (IsUnsafeAt catalogue.now config.now fault) text.items) }
{
    let Ok(declared) = declared_of(alloc, catalogue, config) else {
        return Err(AllocError);
    };
    let told = diagnose_make(alloc, pair_of(&declared, catalogue, config), fault)?;
    written(alloc, &told)
}

// A diagnosis as a text.
fn written<F>(alloc: Global, told: &Diagnosis<'_, F>) -> Result<Vec<u8>, AllocError>
    ensures { IfOk result (λ text. text.items
        ≡ told_at told.now.file.now told.now.position (string_bytes told.now.words)) }
{
    let mut text = Vec::new(alloc);
    push_told(&mut text, told)?;
    Ok(text)
}

/// Writes a diagnosis: its file, its place and its words.
pub(crate) fn push_told<F>(out: &mut Vec<u8>, told: &Diagnosis<'_, F>) -> Result<(), AllocError>
    ensures { OnOk result (out.new.items ≡ out.old.items
        ++ told_at told.now.file.now told.now.position (string_bytes told.now.words)) }
{
    push_text(out, told.file)?;
    push_place(out, told.position)?;
    push_text(out, ": ")?;
    push_text(out, told.words.as_str())
}

// Writes a place behind the name of its file.
fn push_place(out: &mut Vec<u8>, position: Option<Position>) -> Result<(), AllocError>
    ensures { OnOk result (out.new.items ≡ out.old.items ++ place_text position) }
{
    match position {
        Some(position) => push_position(out, position),
        None => Ok(()),
    }
}

fn push_position(out: &mut Vec<u8>, position: Position) -> Result<(), AllocError>
    ensures { OnOk result (out.new.items ≡ out.old.items ++ place_text (Some position)) }
{
    push_numbered(out, ":", position.line as u64)?;
    push_numbered(out, ":", position.column as u64)
}
