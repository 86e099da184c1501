//! The command that makes code of a catalogue.
ghost use Rattle.std.specs.Prelude.{◌≡◌, ◌≢◌, [], Ok, IfErr, IfOk, IsOk, IsSomeAnd, OnOk, true};
ghost use Rattle.metric_catalogue.specs.Catalogues.{opened_of};
ghost use Rattle.metric_views.specs.Configs.{config_of};
ghost use Rattle.wormweekly_commands.specs.Faults.{IsUnread};
ghost use Rattle.wormweekly_commands.specs.Readings.{IsHeld};
ghost use Rattle.wormweekly_commands.specs.Runs.{AreSources, BindsFile, IsSetupFault, IsSourceFault, known_by, writing};

use crate::delivering::{print, put};
use crate::expanding::{catalogue_text, is_overwriting, texts_of_sources};
use crate::fault::{ConsoleFault, Role};
use crate::folder::{Folder, Unread};
use crate::message::Message;
use crate::parts::{Texts, text_at};
use crate::shown_path::shown;
use crate::telling::stop;
use metric_base::Text;
use metric_bind::{BindFault, Bound, C, GO, PYTHON, RATTLE, RUST, Source, code_in};
use metric_catalogue::{Catalogue, CatalogueFault};
use metric_command_lines::{Files, Language, Request};
use metric_io::Sink;
use metric_kit_commands::KitFault;
use metric_views::{Config, ViewFault};
use std::alloc::{AllocError, Global};

// The exit status where no code is made, or other code than a file has.
const REFUSED: u8 = 1;

/// Makes the code that a request asks for, and writes it where the request wants it or compares it with a file. Tells on
/// `errors` why it stops. The exit status.
pub(crate) fn run_bind<F: Folder, W: Sink, E: Sink>(
    alloc: Global,
    request: &Request,
    folder: &mut F,
    sink: &mut W,
    errors: &mut E,
) -> u8
    ensures { BindsFile (known_by F.held F.same folder.old) request.now.files
        (writing F.made W.contents folder.old folder.new sink.old sink.new) result }
{
    match sources_of(alloc, folder, &request.files) {
        Ok(texts) => bind_source(alloc, request, &texts, folder, sink, errors),
        Err(fault) => stop(alloc, request, None, fault, errors),
    }
}

// The texts of the catalogue, and of the config where one is named, unless the file to write to is one of them.
fn sources_of<F: Folder>(alloc: Global, folder: &F, files: &Files) -> Result<Texts, ConsoleFault>
    ensures { IfOk result (λ texts. AreSources (F.held folder.now) files.now texts.parts) }
{
    let catalogue = catalogue_text(alloc, folder, files)?;
    let config = config_text(alloc, folder, files)?;
    Ok(texts_of_sources(alloc, catalogue, config))
}

// The text of the config where one is named, unless the file to write to is the same.
fn config_text<F: Folder>(alloc: Global, folder: &F, files: &Files) -> Result<Text, ConsoleFault>
    ensures read { IfOk result (λ text. files.now.config ≢ []
        → IsHeld (F.held folder.now) files.now.config text) }
    ensures apart { OnOk result (files.now.config ≢ []
        → IsSomeAnd files.now.output (λ path. path ≡ files.now.config) → ⊥) }
{
    if files.config.as_str().is_empty() {
        return Ok(Text::from_string(String::new(alloc)));
    }
    if is_overwriting(folder, files, &files.config) {
        return Err(ConsoleFault::Overwrites { role: Role::Config });
    }
    text_at(alloc, folder, &files.config, Role::Config)
}

// Makes code of a catalogue that was read.
fn bind_source<F: Folder, W: Sink, E: Sink>(
    alloc: Global,
    request: &Request,
    texts: &Texts,
    folder: &mut F,
    sink: &mut W,
    errors: &mut E,
) -> u8
    requires read { AreSources (F.held folder.old) request.now.files texts.now.parts }
    ensures { BindsFile (known_by F.held F.same folder.old) request.now.files
        (writing F.made W.contents folder.old folder.new sink.old sink.new) result }
{
    match opened(alloc, texts.parts.catalogue.as_str()) {
        Ok(catalogue) => bind_opened(alloc, request, texts, &catalogue, folder, sink, errors),
        Err(fault) => stop(alloc, request, Some(texts), fault, errors),
    }
}

// The catalogue that a text is.
fn opened(alloc: Global, text: &str) -> Result<Catalogue, ConsoleFault>
    ensures ok { IfOk result (λ catalogue. opened_of text.now ≡ Ok catalogue) }
    ensures first { IfErr result (IsSourceFault text.now) }
{
    match Catalogue::open(alloc, text) {
        Ok(catalogue) => Ok(catalogue),
        Err(CatalogueFault::Memory) => Err(no_memory()),
        Err(fault) => Err(ConsoleFault::Kit(KitFault::Catalogue(fault))),
    }
}

fn no_memory() -> ConsoleFault
    ensures { result ≡ ConsoleFault.Unread Role.Catalogue Unread.Memory }
{
    ConsoleFault::Unread {
        role: Role::Catalogue,
        cause: Unread::Memory,
    }
}

// Makes code of a catalogue that was opened, with the readers of the config where one is named.
fn bind_opened<F: Folder, W: Sink, E: Sink>(
    alloc: Global,
    request: &Request,
    texts: &Texts,
    catalogue: &Catalogue,
    folder: &mut F,
    sink: &mut W,
    errors: &mut E,
) -> u8
    requires read { AreSources (F.held folder.old) request.now.files texts.now.parts }
    requires opened { opened_of texts.now.parts.catalogue ≡ Ok catalogue.now }
    ensures { BindsFile (known_by F.held F.same folder.old) request.now.files
        (writing F.made W.contents folder.old folder.new sink.old sink.new) result }
{
    match setup(alloc, &request.files, texts.parts.config.as_str()) {
        Ok(config) => bind_catalogue(
            alloc, request, texts, catalogue, &config, folder, sink, errors,
        ),
        Err(fault) => stop(alloc, request, Some(texts), fault, errors),
    }
}

// The config that a text is, where one is named.
fn setup(alloc: Global, files: &Files, text: &str) -> Result<Option<Config>, ConsoleFault>
    ensures ok { OnOk result (files.now.config ≢ [] → IsOk (config_of text.now)) }
    ensures first { IfErr result (λ fault.
        (files.now.config ≢ []) × IsSetupFault text.now fault) }
{
    if files.config.as_str().is_empty() {
        return Ok(None);
    }
    match Config::read(alloc, text) {
        Ok(config) => Ok(Some(config)),
        Err(ViewFault::Memory) => Err(ConsoleFault::Unread {
            role: Role::Config,
            cause: Unread::Memory,
        }),
        Err(fault) => Err(ConsoleFault::Kit(KitFault::Config(fault))),
    }
}

// Makes code of a catalogue and a config.
fn bind_catalogue<F: Folder, W: Sink, E: Sink>(
    alloc: Global,
    request: &Request,
    texts: &Texts,
    catalogue: &Catalogue,
    config: &Option<Config>,
    folder: &mut F,
    sink: &mut W,
    errors: &mut E,
) -> u8
    requires read { AreSources (F.held folder.old) request.now.files texts.now.parts }
    requires opened { opened_of texts.now.parts.catalogue ≡ Ok catalogue.now }
    requires config_read { request.now.files.config ≢ [] → IsOk (config_of texts.now.parts.config) }
    ensures { BindsFile (known_by F.held F.same folder.old) request.now.files
        (writing F.made W.contents folder.old folder.new sink.old sink.new) result }
{
    match code_of(alloc, request.options.language, catalogue, config) {
        Ok(bound) => put_code(
            alloc,
            request,
            texts,
            catalogue,
            bound.text(),
            folder,
            sink,
            errors,
        ),
        Err(BindFault::Memory) => stop(alloc, request, None, no_memory(), errors),
        Err(fault) => refuse(alloc, request, fault, errors),
    }
}

// The code that a catalogue comes to, with the readers of a config.
fn code_of(
    alloc: Global,
    language: Option<Language>,
    catalogue: &Catalogue,
    config: &Option<Config>,
) -> Result<Bound, BindFault> {
    let readers = reader_names(alloc, config)?;
    let source = Source {
        meters: catalogue.meters(),
        instruments: catalogue.instruments(),
        recorders: catalogue.recorders(),
        readers: config.is_some().then_some(readers.as_slice()),
    };
    let language = match language {
        Some(Language::C) => &C,
        Some(Language::Go) => &GO,
        Some(Language::Python) => &PYTHON,
        Some(Language::Rattle) => &RATTLE,
        Some(Language::Rust) | None => &RUST,
    };
    code_in(alloc, source, language)
}

// The names of the readers of a config; none where there is no config.
fn reader_names(alloc: Global, config: &Option<Config>) -> Result<Vec<&str>, AllocError> {
    let mut names = Vec::new(alloc);
    let Some(config) = config else {
        return Ok(names);
    };
    for reader in config.readers() {
        names.push(reader.name.as_str())?;
    }
    Ok(names)
}

// Writes code, or compares it with a file.
fn put_code<F: Folder, W: Sink, E: Sink>(
    alloc: Global,
    request: &Request,
    texts: &Texts,
    catalogue: &Catalogue,
    code: &str,
    folder: &mut F,
    sink: &mut W,
    errors: &mut E,
) -> u8
    requires read { AreSources (F.held folder.old) request.now.files texts.now.parts }
    requires opened { opened_of texts.now.parts.catalogue ≡ Ok catalogue.now }
    requires config_read { request.now.files.config ≢ [] → IsOk (config_of texts.now.parts.config) }
    ensures { BindsFile (known_by F.held F.same folder.old) request.now.files
        (writing F.made W.contents folder.old folder.new sink.old sink.new) result }
{
    let Some(path) = &request.files.bound else {
        return match put(&request.files.output, code.as_bytes(), folder, sink) {
            Ok(()) => 0,
            Err(fault) => stop(alloc, request, None, fault, errors),
        };
    };
    match is_held(alloc, folder, path, code) {
        Ok(true) => 0,
        Ok(false) => tell(alloc, path, OTHERWISE, errors),
        Err(fault) => stop(alloc, request, None, fault, errors),
    }
}

const OTHERWISE: &str = "it would be made otherwise: run 'wormweekly bind' again";

// Whether a file has this text.
fn is_held<F: Folder>(
    alloc: Global,
    folder: &F,
    path: &Text,
    code: &str,
) -> Result<bool, ConsoleFault>
    ensures same { IfOk result (λ same. same ≡ true
        → IsHeld (F.held folder.now) path.now code.now) }
    ensures unread { IfErr result IsUnread }
{
    let text = text_at(alloc, folder, path, Role::Bound)?;
    Ok(text.as_str() == code)
}

// Tells why no code is made of a catalogue.
fn refuse<E: Sink>(alloc: Global, request: &Request, fault: BindFault, errors: &mut E) -> u8
    ensures { result ≡ 1 }
{
    match fault.to_string(alloc) {
        Ok(words) => tell(alloc, &request.files.catalogue, words.as_str(), errors),
        Err(_) => tell(alloc, &request.files.catalogue, "out of memory", errors),
    }
}

// Tells what is wrong with a file, whatever becomes of the telling.
fn tell<E: Sink>(alloc: Global, path: &Text, words: &str, errors: &mut E) -> u8
    ensures { result ≡ 1 }
{
    let _message = match Message::of_file(alloc, shown(path.as_str()), words) {
        Ok(told) => print(errors, told.text.as_str()),
        Err(_) => print(errors, "out of memory\n"),
    };
    REFUSED
}
