//! What a person is told of a fault of the old files of a comparison.
use crate::message::Message;
use crate::parts::Texts;
use crate::telling::named_source;
use metric_command_lines::Files;
use metric_kit_commands::KitFault;
use metric_messages::{diagnose_catalogue, diagnose_config};
use std::alloc::{AllocError, Global};

/// A fault of the old files, with its place and its cause.
pub(crate) fn old_message(
    alloc: Global,
    files: &Files,
    texts: Option<&Texts>,
    fault: KitFault,
) -> Result<Message, AllocError> {
    let Some(
        Texts {
            old: Some(parts),
            ..
        },
    ) = texts
    else {
        return Message::plain(alloc, fault);
    };
    match fault {
        KitFault::Catalogue(fault) => {
            let source = named_source(&files.old_catalogue, &parts.catalogue);
            Message::diagnosed(alloc, diagnose_catalogue(alloc, source, fault))
        }
        KitFault::Config(fault) => {
            let source = named_source(&files.old_config, &parts.config);
            Message::diagnosed(alloc, diagnose_config(alloc, source, fault))
        }
        _ => Message::plain(alloc, fault),
    }
}
