//! What a person is told of a page that a replay does not print.
use crate::fault::PageFault;
use crate::message::Message;
use crate::parts::Texts;
use crate::shown_path::shown;
use crate::telling::pair_of;
use metric_command_lines::{Files, Request};
use metric_exposure::{ExposureFault, Outlet};
use metric_kit_commands::{Declared, declared_of};
use metric_messages::diagnose_exposure;
use metric_resolve::resolve_streams;
use metric_resource::Resource;
use std::alloc::{AllocError, Global};

/// Tells why there is no page: of the words, or of the config and its place.
pub(crate) fn page_message(
    alloc: Global,
    request: &Request,
    texts: Option<&Texts>,
    fault: PageFault,
) -> Result<Message, AllocError> {
    let resource = &request.resource;
    let config = shown(request.files.config.as_str());
    match fault {
        PageFault::BadLabel { attribute } => label_message(alloc, resource, attribute),
        PageFault::LabelCollision { attribute, other } => {
            labels_message(alloc, resource, attribute, other)
        }
        PageFault::NoReader => reader_message(alloc, config, request),
        PageFault::NoneServed => Message::of_file(
            alloc,
            config,
            "no reader has a cumulative stream, which a page needs",
        ),
        PageFault::SeveralReaders => Message::of_file(
            alloc,
            config,
            "several readers have cumulative streams; name one by '--reader'",
        ),
        PageFault::Exposure(fault) => exposure_message(alloc, &request.files, texts, fault),
    }
}

fn label_message(
    alloc: Global,
    resource: &Resource,
    attribute: usize,
) -> Result<Message, AllocError> {
    let key = key_at(resource, attribute);
    let words = format!(in alloc;
        "error: '--resource': the key '{key}' has no letter and no digit for a label"
    )?;
    Message::of_words(alloc, words)
}

fn labels_message(
    alloc: Global,
    resource: &Resource,
    attribute: usize,
    other: usize,
) -> Result<Message, AllocError> {
    let key = key_at(resource, attribute);
    let also = key_at(resource, other);
    let words = format!(in alloc;
        "error: '--resource': the keys '{key}' and '{also}' are one label in a page"
    )?;
    Message::of_words(alloc, words)
}

fn reader_message(alloc: Global, config: &str, request: &Request) -> Result<Message, AllocError> {
    match &request.reader {
        Some(name) => {
            let name = name.as_str();
            let words = format!(in alloc; "no reader is named '{name}'")?;
            Message::of_file(alloc, config, words.as_str())
        }
        None => Message::of_file(alloc, config, "it has not each reader that '--for' names"),
    }
}

// The key of an attribute.
fn key_at(resource: &Resource, attribute: usize) -> &str {
    match resource.as_slice().get(attribute) {
        Some(attribute) => attribute.key.as_str(),
        None => "",
    }
}

// What a server would lose, as a lint for it tells.
fn exposure_message(
    alloc: Global,
    files: &Files,
    texts: Option<&Texts>,
    fault: ExposureFault,
) -> Result<Message, AllocError> {
    let Some(texts) = texts else {
        return Message::of_words(alloc, format!(in alloc; "{fault}")?);
    };
    match declared_of(alloc, &texts.parts) {
        Ok(declared) => declared_message(alloc, files, texts, &declared, fault),
        Err(fault) => Message::plain(alloc, fault),
    }
}

fn declared_message(
    alloc: Global,
    files: &Files,
    texts: &Texts,
    declared: &Declared,
    fault: ExposureFault,
) -> Result<Message, AllocError> {
    let streams = resolve_streams(alloc, &declared.catalogue, &declared.config)?;
    let pair = pair_of(files, texts, declared);
    let told = diagnose_exposure(alloc, pair, streams.as_slice(), Outlet::Prometheus, fault);
    Message::diagnosed(alloc, told)
}
