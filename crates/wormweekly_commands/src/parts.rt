//! The texts of a request's files.
ghost use Rattle.std.specs.Prelude.{IfOk, IfErr};
ghost use Rattle.std.specs.List.{AllZip};
ghost use Rattle.wormweekly_commands.specs.Readings.{AreOld, ArePair, AreTexts, IsHeld, MayBeHeld};
ghost use Rattle.wormweekly_commands.specs.Faults.{IsUnread};

use crate::fault::{ConsoleFault, Role};
use crate::folder::{Folder, Unread};
use metric_base::{Items, Text};
use metric_command_lines::Files;
use metric_parts::Parts;
use std::alloc::Global;

/// The texts of a request's files: the old parts of a comparison, the parts that a command reads, the script, the changes
/// that are accepted, and the files of queries.
pub(crate) struct Texts {
    pub old: Option<Parts<'static>>,
    pub parts: Parts<'static>,
    pub script: Option<Text>,
    pub accepted: Option<Text>,
    pub queries: Items<Text>,
}

impl Drop for Texts {
    fn drop(self) {
        let Texts {
            old: _old,
            parts: _parts,
            script: _script,
            accepted: _accepted,
            queries: _queries,
        } = self;
    }
}

/// Reads the files of a request, in the order of the words, up to the first that cannot be read.
pub(crate) fn texts_of<F: Folder>(
    alloc: Global,
    folder: &F,
    files: &Files,
) -> Result<Texts, ConsoleFault>
    ensures texts { IfOk result (AreTexts (F.held folder.now) files.now) }
    ensures unread { IfErr result IsUnread }
{
    let old = old_parts(alloc, folder, files)?;
    let catalogue = text_at(alloc, folder, &files.catalogue, Role::Catalogue)?;
    let config = text_at(alloc, folder, &files.config, Role::Config)?;
    let certificate = optional_text(alloc, folder, &files.certificate, Role::Certificate)?;
    let accepted = optional_text(alloc, folder, &files.accepted, Role::Accepted)?;
    let script = optional_text(alloc, folder, &files.script, Role::Script)?;
    let queries = query_texts(alloc, folder, files.queries.as_slice())?;
    let parts = Parts {
        catalogue,
        opens: true,
        config,
        certificate,
        script: None,
    };
    Ok(Texts {
        old,
        parts,
        script,
        accepted,
        queries,
    })
}

// The texts of the files of queries.
#[tactic(auto, using(crate::proofs::Held::texts_more))]
fn query_texts<F: Folder>(
    alloc: Global,
    folder: &F,
    paths: &[Text],
) -> Result<Items<Text>, ConsoleFault>
    ensures read { IfOk result (AllZip (IsHeld (F.held folder.now)) paths.now) }
    ensures unread { IfErr result IsUnread }
{
    let mut texts = Items::new(alloc);
    for number in 0..paths.len() {
        let role = Role::Queries { number };
        let text = text_at(alloc, folder, &paths[number], role)?;
        match texts.push(text) {
            Ok(()) => {}
            Err(refused) => {
                let cause = Unread::from(refused);
                return Err(ConsoleFault::Unread { role, cause });
            }
        }
    }
    Ok(texts)
}

// The old parts of a comparison.
fn old_parts<F: Folder>(
    alloc: Global,
    folder: &F,
    files: &Files,
) -> Result<Option<Parts<'static>>, ConsoleFault>
    ensures read { IfOk result (AreOld (F.held folder.now) files.now.old_catalogue
        files.now.old_config) }
    ensures unread { IfErr result IsUnread }
{
    match (&files.old_catalogue, &files.old_config) {
        (Some(catalogue), Some(config)) => { Ok(Some(parts_at(alloc, folder, catalogue, config)?)) }
        _ => Ok(None),
    }
}

// The parts that two old files are.
fn parts_at<F: Folder>(
    alloc: Global,
    folder: &F,
    catalogue: &Text,
    config: &Text,
) -> Result<Parts<'static>, ConsoleFault>
    ensures read { IfOk result (ArePair (F.held folder.now) catalogue.now config.now) }
    ensures unread { IfErr result IsUnread }
{
    let catalogue = text_at(alloc, folder, catalogue, Role::OldCatalogue)?;
    let config = text_at(alloc, folder, config, Role::OldConfig)?;
    Ok(Parts {
        catalogue,
        opens: true,
        config,
        certificate: None,
        script: None,
    })
}

// The text of a file that the request may lack.
fn optional_text<F: Folder>(
    alloc: Global,
    folder: &F,
    path: &Option<Text>,
    role: Role,
) -> Result<Option<Text>, ConsoleFault>
    ensures read { IfOk result (MayBeHeld (F.held folder.now) path.now) }
    ensures unread { IfErr result IsUnread }
{
    match path {
        Some(path) => Ok(Some(text_at(alloc, folder, path, role)?)),
        None => Ok(None),
    }
}

// The text of a file.
pub(crate) fn text_at<F: Folder>(
    alloc: Global,
    folder: &F,
    path: &Text,
    role: Role,
) -> Result<Text, ConsoleFault>
    ensures read { IfOk result (λ text. IsHeld (F.held folder.now) path.now text) }
    ensures unread { IfErr result IsUnread }
{
    match folder.read(alloc, path.as_str()) {
        Ok(text) => Ok(text),
        Err(cause) => Err(ConsoleFault::Unread { role, cause }),
    }
}
