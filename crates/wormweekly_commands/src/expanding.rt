//! The command that prints a catalogue in full.
ghost use Rattle.std.specs.Prelude.{◌≡◌, ℕ, List, Ok, IfErr, IfOk, IsSomeAnd, OnOk, false, string_bytes};
ghost use Rattle.metric_catalogue.specs.Catalogues.{catalogue_of, opened_of};
ghost use Rattle.wormweekly_commands.specs.Readings.{IsHeld};
ghost use Rattle.wormweekly_commands.specs.Runs.{ExpandsFile, IsFullFault, IsInFull, known_by, writing};

use crate::delivering::put;
use crate::fault::{ConsoleFault, Role};
use crate::folder::{Folder, Unread};
use crate::parts::{Texts, text_at};
use crate::telling::stop;
use metric_base::{Items, Text};
use metric_catalogue::{Catalogue, CatalogueFault};
use metric_command_lines::{Files, Request};
use metric_io::Sink;
use metric_kit_commands::KitFault;
use metric_parts::Parts;
use std::alloc::Global;

/// Writes the catalogue of a request in full where the request wants it, and tells on `errors` why it stops. The exit
/// status.
pub(crate) fn run_expand<F: Folder, W: Sink, E: Sink>(
    alloc: Global,
    request: &Request,
    folder: &mut F,
    sink: &mut W,
    errors: &mut E,
) -> u8
    ensures { ExpandsFile (known_by F.held F.same folder.old) request.now.files
        (writing F.made W.contents folder.old folder.new sink.old sink.new) result }
{
    match source_of(alloc, folder, &request.files) {
        Ok(texts) => expand_source(alloc, request, &texts, folder, sink, errors),
        Err(fault) => stop(alloc, request, None, fault, errors),
    }
}

// The catalogue alone, unless the file to write to is the same.
fn source_of<F: Folder>(alloc: Global, folder: &F, files: &Files) -> Result<Texts, ConsoleFault>
    ensures read { IfOk result (λ texts.
        IsHeld (F.held folder.now) files.now.catalogue texts.parts.catalogue) }
    ensures apart { OnOk result
        (IsSomeAnd files.now.output (λ path. path ≡ files.now.catalogue) → ⊥) }
{
    let catalogue = catalogue_text(alloc, folder, files)?;
    let config = Text::from_string(String::new(alloc));
    Ok(texts_of_sources(alloc, catalogue, config))
}

/// The text of the catalogue, unless the file to write to is the same.
pub(crate) fn catalogue_text<F: Folder>(
    alloc: Global,
    folder: &F,
    files: &Files,
) -> Result<Text, ConsoleFault>
    ensures read { IfOk result (λ text. IsHeld (F.held folder.now) files.now.catalogue text) }
    ensures apart { OnOk result
        (IsSomeAnd files.now.output (λ path. path ≡ files.now.catalogue) → ⊥) }
{
    if is_overwriting(folder, files, &files.catalogue) {
        return Err(ConsoleFault::Overwrites {
            role: Role::Catalogue,
        });
    }
    text_at(alloc, folder, &files.catalogue, Role::Catalogue)
}

/// The texts of a catalogue and a config, with no other.
pub(crate) fn texts_of_sources(alloc: Global, catalogue: Text, config: Text) -> Texts
    ensures catalogue { result.parts.catalogue ≡ catalogue }
    ensures config { result.parts.config ≡ config }
{
    let parts = Parts {
        catalogue,
        opens: true,
        config,
        certificate: None,
        script: None,
    };
    Texts {
        old: None,
        parts,
        script: None,
        accepted: None,
        queries: Items::new(alloc),
    }
}

/// Whether the file to write to is one that is read.
pub(crate) fn is_overwriting<F: Folder>(folder: &F, files: &Files, input: &Text) -> bool
    ensures { result ≡ false → IsSomeAnd files.now.output (λ path. path ≡ input.now) → ⊥ }
{
    match &files.output {
        Some(output) => folder.is_same(output.as_str(), input.as_str()),
        None => false,
    }
}

// Writes a catalogue that was read in full.
fn expand_source<F: Folder, W: Sink, E: Sink>(
    alloc: Global,
    request: &Request,
    texts: &Texts,
    folder: &mut F,
    sink: &mut W,
    errors: &mut E,
) -> u8
    requires read { IsHeld (F.held folder.old) request.now.files.catalogue
        texts.now.parts.catalogue }
    requires apart { IsSomeAnd request.now.files.output (λ path. path ≡ request.now.files.catalogue)
        → ⊥ }
    ensures { ExpandsFile (known_by F.held F.same folder.old) request.now.files
        (writing F.made W.contents folder.old folder.new sink.old sink.new) result }
{
    match full_of(alloc, texts.parts.catalogue.as_str()) {
        Ok(printed) => {
            match put(&request.files.output, printed.as_bytes(), folder, sink) {
                Ok(()) => 0,
                Err(fault) => stop(alloc, request, None, fault, errors),
            }
        }
        Err(fault) => stop(alloc, request, Some(texts), fault, errors),
    }
}

// The catalogue that a text is, in full.
fn full_of(alloc: Global, text: &str) -> Result<String, ConsoleFault>
    ensures ok { IfOk result (λ printed. IsInFull text.now (string_bytes printed)) }
    ensures first { IfErr result (IsFullFault text.now) }
{
    match Catalogue::open(alloc, text) {
        Ok(catalogue) => in_full(alloc, &catalogue),
        Err(CatalogueFault::Memory) => Err(unread(Unread::Memory)),
        Err(fault) => Err(ConsoleFault::Kit(KitFault::Catalogue(fault))),
    }
}

// A catalogue that was opened, in full.
fn in_full(alloc: Global, catalogue: &Catalogue) -> Result<String, ConsoleFault>
    ensures ok { IfOk result (λ printed. catalogue_of (string_bytes printed) ≡ Ok catalogue.now) }
    ensures first { (text : List ℕ) → opened_of text ≡ Ok catalogue.now
        → IfErr result (IsFullFault text) }
{
    match catalogue.in_full(alloc) {
        Ok(Some(printed)) => Ok(printed),
        Ok(None) => Err(unread(Unread::TooLarge)),
        Err(_) => Err(unread(Unread::Memory)),
    }
}

fn unread(cause: Unread) -> ConsoleFault
    ensures { result ≡ ConsoleFault.Unread Role.Catalogue cause }
{
    ConsoleFault::Unread {
        role: Role::Catalogue,
        cause,
    }
}
