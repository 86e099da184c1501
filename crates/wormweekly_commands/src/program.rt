//! A request, run.
ghost use Rattle.std.specs.Prelude.{◌≡◌, ◌≢◌, IfErr, IfOk, IsSome, IsSomeAnd, MatchOption, None, OnErr, OnOk, [], false, true};
ghost use Rattle.wormweekly_commands.specs.Answers.{HasReaders, IsUnknownReader};
ghost use Rattle.wormweekly_commands.specs.Comparing.{Compares, RefusesDiff, broken_status};
ghost use Rattle.wormweekly_commands.specs.Faults.{IsDeviceFault, IsRefusal};
ghost use Rattle.metric_kit_commands.specs.Commands.{HasNeeded, sink_run};
ghost use Rattle.metric_kit_commands.specs.Replaying.{needs_of, plain_options};
ghost use Rattle.wormweekly_commands.specs.Paging.{dialect_of};
ghost use Rattle.std.specs.List.{list_any};
ghost use Rattle.std.specs.Str.{bytes_eq};
ghost use Rattle.wormweekly_commands.specs.Runs.{Answers, EndsPlain, EndsScript, IsInput, IsOld, IsOneFile, IsOverwriting, IsQueriesFile, IsReplayEnd, NamesInput, NamesOld, NamesOther};
ghost use Rattle.wormweekly_commands.specs.Runs.{RefusesFor, Replays, RunsCommand, RunsRequest};
ghost use Rattle.wormweekly_commands.specs.Runs.{Reports, RunsTexts, known_by, writing};
ghost use Rattle.wormweekly_commands.specs.Reporting.{RefusesWhole};
ghost use Rattle.wormweekly_commands.specs.Told.{IsLineEnd};

use crate::accepting::{accepted_of, tell_unused};
use crate::answer::{Answer, answer_of};
use crate::binding::run_bind;
use crate::broken::{Broken, broken_queries, lines_of};
use crate::change_sheet::ChangeSheet;
use crate::comparing::{comparison_of, diff_status};
use crate::concerns::{denies_broken, kept, names, still_open};
use crate::delivering::{deliver, print, print_sheet, put};
use crate::drawing::run_draw;
use crate::expanding::run_expand;
use crate::fault::{ConsoleFault, Role};
use crate::folder::{Folder, Unread};
use crate::noting::{MOST_NOTES, print_more};
use crate::page_readers::check_readers;
use crate::paging::{dialect_of, replay_as_page};
use crate::parts::{Texts, texts_of};
use crate::queries::run_queries;
use crate::refused::tell_refused;
use crate::replaying::{is_trial, replay_in_form, scripted};
use crate::report::report_of;
use crate::report_page::report_page;
use crate::telling::{stop_in_form, tell_line, warn};
use metric_base::Text;
use metric_command_lines::{Files, Request, RequestFault, Task};
use metric_diff::Change;
use metric_io::Sink;
use metric_kit_commands::KitFault;
use metric_parts::Parts;
use metric_sheet::Sheet;
use metric_text::lines;
use std::alloc::Global;

/// Runs what a command line asks for, in a folder and into a sink, tells on `errors` why it stops, or on `faults` where
/// lines of JSON are asked for and the fault is of files, and gives the program's exit status: 0 where it is done, 1 where
/// what is asked for is refused or denied, 2 where the words name no command or a file to write to that is read, 3 where a
/// file cannot be read or has a fault, 4 when out of memory, 5 where a write failed. A table is `columns` wide at most
/// where the request does not say how wide; 0 means that it may be as wide as it likes.
pub fn run_request<F: Folder, W: Sink, X: Sink, E: Sink>(
    alloc: Global,
    request: Result<Request, RequestFault>,
    columns: u32,
    folder: &mut F,
    sink: &mut W,
    faults: &mut X,
    errors: &mut E,
) -> u8
    ensures asked { IfOk request (λ asked. RunsRequest (known_by F.held F.same folder.old) asked
        (writing F.made W.contents folder.old folder.new sink.old sink.new)
        (sink_run W.contents W.failures sink.old sink.new) result) }
    ensures unasked { IfErr request (λ fault.
        IsLineEnd fault (W.contents sink.old) (W.contents sink.new) result) }
    ensures unmade { OnErr request (folder.new ≡ folder.old) }
{
    match request {
        Ok(request) => run_asked(alloc, &request, columns, folder, sink, faults, errors),
        Err(fault) => tell_line(fault, sink, errors),
    }
}

fn run_asked<F: Folder, W: Sink, X: Sink, E: Sink>(
    alloc: Global,
    request: &Request,
    columns: u32,
    folder: &mut F,
    sink: &mut W,
    faults: &mut X,
    errors: &mut E,
) -> u8
    ensures { RunsRequest (known_by F.held F.same folder.old) request.now
        (writing F.made W.contents folder.old folder.new sink.old sink.new)
        (sink_run W.contents W.failures sink.old sink.new) result }
{
    if request.task == Task::Expand {
        run_expand(alloc, request, folder, sink, errors)
    } else if request.task == Task::Bind {
        run_bind(alloc, request, folder, sink, errors)
    } else {
        run_files(alloc, request, columns, folder, sink, faults, errors)
    }
}

// Runs a command on its files, and tells how it ends.
fn run_files<F: Folder, W: Sink, X: Sink, E: Sink>(
    alloc: Global,
    request: &Request,
    columns: u32,
    folder: &mut F,
    sink: &mut W,
    faults: &mut X,
    errors: &mut E,
) -> u8
    requires long { request.now.task ≢ Task.Expand }
    requires code { request.now.task ≢ Task.Bind }
    ensures { RunsCommand (known_by F.held F.same folder.old) request.now
        (writing F.made W.contents folder.old folder.new sink.old sink.new)
        (sink_run W.contents W.failures sink.old sink.new) result }
{
    if let Some(role) = overwritten(folder, &request.files) {
        let fault = ConsoleFault::Overwrites { role };
        return stop_in_form(alloc, request, None, fault, faults, errors);
    }
    let texts = match texts_of(alloc, folder, &request.files) {
        Ok(texts) => texts,
        Err(fault) => return stop_in_form(alloc, request, None, fault, faults, errors),
    };
    match run_texts(alloc, request, &texts, columns, folder, sink, errors) {
        Ok(status) => status,
        Err(fault) => stop_in_form(alloc, request, Some(&texts), fault, faults, errors),
    }
}

// Which of the files that are read the output is.
fn overwritten<F: Folder>(folder: &F, files: &Files) -> Option<Role>
    ensures { MatchOption result (NamesInput files.now → ⊥)
        (IsOverwriting (F.same folder.now) files.now) }
{
    let Some(output) = &files.output else {
        return None;
    };
    if folder.is_same(output.as_str(), files.catalogue.as_str()) {
        Some(Role::Catalogue)
    } else if folder.is_same(output.as_str(), files.config.as_str()) {
        Some(Role::Config)
    } else {
        overwritten_other(folder, output.as_str(), files)
    }
}

// Which of the files that a request may lack a path leads to.
#[tactic(auto, using(crate::proofs::Overwriting::old_is_input, crate::proofs::Overwriting::names_neither))]
fn overwritten_other<F: Folder>(folder: &F, output: &str, files: &Files) -> Option<Role>
    ensures { MatchOption result (NamesOther output.now files.now → ⊥)
        (IsInput (F.same folder.now) output.now files.now) }
{
    if let Some(role) = overwritten_old(folder, output, files) {
        return Some(role);
    }
    let number = overwritten_queries(folder, output, files.queries.as_slice())?;
    Some(Role::Queries { number })
}

// The number of the file of queries that a path leads to.
#[tactic(auto, using(crate::proofs::Overwriting::none_more))]
fn overwritten_queries<F: Folder>(folder: &F, output: &str, queries: &[Text]) -> Option<usize>
    ensures { MatchOption result (list_any (bytes_eq output.now) queries.now ≡ false)
        (IsQueriesFile (F.same folder.now) output.now queries.now) }
{
    for number in 0..queries.len() {
        if folder.is_same(output, queries[number].as_str()) {
            return Some(number);
        }
    }
    None
}

// Which of the old files, where there are some, a path leads to.
fn overwritten_old<F: Folder>(folder: &F, output: &str, files: &Files) -> Option<Role>
    ensures { MatchOption result (NamesOld output.now files.now → ⊥)
        (IsOld (F.same folder.now) output.now files.now) }
{
    if is_at(folder, output, &files.old_catalogue) {
        Some(Role::OldCatalogue)
    } else if is_at(folder, output, &files.old_config) {
        Some(Role::OldConfig)
    } else {
        None
    }
}

// Whether a path leads to a file that the request may lack.
fn is_at<F: Folder>(folder: &F, output: &str, path: &Option<Text>) -> bool
    ensures known { result ≡ true → IsSomeAnd path.now (IsOneFile (F.same folder.now) output.now) }
    ensures own { result ≡ false → IsSomeAnd path.now (λ own. own ≡ output.now) → ⊥ }
{
    match path {
        Some(path) => folder.is_same(output, path.as_str()),
        None => false,
    }
}

// Runs a command on the texts of its files. The exit status.
fn run_texts<F: Folder, W: Sink, E: Sink>(
    alloc: Global,
    request: &Request,
    texts: &Texts,
    columns: u32,
    folder: &mut F,
    sink: &mut W,
    errors: &mut E,
) -> Result<u8, ConsoleFault>
    requires long { request.now.task ≢ Task.Expand }
    requires code { request.now.task ≢ Task.Bind }
    ensures { RunsTexts request.now texts.now
        (writing F.made W.contents folder.old folder.new sink.old sink.new)
        (sink_run W.contents W.failures sink.old sink.new) result }
{
    if request.task == Task::Replay {
        run_replay(alloc, request, texts, sink, errors)
    } else if request.task == Task::Diff {
        run_diff(alloc, request, texts, columns, sink, errors)
    } else if request.task == Task::Report {
        run_report(alloc, request, texts, folder, sink)
    } else if request.task == Task::Draw {
        run_draw(alloc, request, texts, folder, sink)
    } else if request.task == Task::Queries {
        run_queries(alloc, request, texts, sink, errors)
    } else {
        run_answer(alloc, request, texts, columns, folder, sink, errors)
    }
}

// Answers of the texts what a request asks for, writes the answer, and tells what is to be warned of. The exit status.
#[tactic(auto, using(crate::proofs::Devices::delivery_is_no_refusal, crate::proofs::Reports::unknown_reader_refuses))]
fn run_answer<F: Folder, W: Sink, E: Sink>(
    alloc: Global,
    request: &Request,
    texts: &Texts,
    columns: u32,
    folder: &mut F,
    sink: &mut W,
    errors: &mut E,
) -> Result<u8, ConsoleFault>
    requires other { request.now.task ≢ Task.Replay }
    requires single { request.now.task ≢ Task.Diff }
    requires long { request.now.task ≢ Task.Expand }
    requires answer { request.now.task ≢ Task.Report }
    requires picture { request.now.task ≢ Task.Draw }
    requires queries { request.now.task ≢ Task.Queries }
    requires code { request.now.task ≢ Task.Bind }
    ensures ok { IfOk result (Answers request.now texts.now.parts
        (writing F.made W.contents folder.old folder.new sink.old sink.new)) }
    ensures first { IfErr result (RefusesFor request.now texts.now.parts) }
    ensures unmade { OnErr result (F.made folder.new ≡ F.made folder.old) }
    ensures unwritten { IfErr result (λ fault. IsRefusal fault → sink.new ≡ sink.old) }
{
    let task = request.task;
    if task == Task::Check && texts.parts.certificate.is_none() {
        return Err(missing(Role::Certificate));
    }
    let answer = answer_of(alloc, task, request, &texts.parts)?;
    check_answer(request.concerns.outlets.as_slice(), &answer)?;
    let status = deliver(alloc, request, texts, &answer, columns, folder, sink)?;
    warn(alloc, request, texts, &answer, errors);
    Ok(status)
}

// Refuses an answer where a reader that words name is not there.
fn check_answer(words: &[Text], answer: &Answer) -> Result<(), ConsoleFault>
    ensures ok { OnOk result (HasReaders words.now answer.now) }
    ensures err { IfErr result (λ fault. IsUnknownReader words.now answer.now fault) }
{
    match answer {
        Answer::Notes(notes) => check_readers(words, notes.declared.config.readers()),
        _ => Ok(()),
    }
}

// Compares old files with new ones, and writes what differs. The exit status.
#[tactic(auto, using(crate::proofs::Devices::device_is_not_refused))]
fn run_diff<W: Sink, E: Sink>(
    alloc: Global,
    request: &Request,
    texts: &Texts,
    columns: u32,
    sink: &mut W,
    errors: &mut E,
) -> Result<u8, ConsoleFault>
    ensures ok { IfOk result (Compares request.now texts.now) }
    ensures first { IfErr result (RefusesDiff texts.now) }
    ensures untouched { IfErr result (λ fault. IsRefusal fault
        → W.contents sink.new ≡ W.contents sink.old) }
{
    let comparison = comparison_of(alloc, texts)?;
    let allowed = request.concerns.allowed.as_slice();
    let told = kept(alloc, comparison.changes.as_slice(), allowed)?;
    let broken = broken_queries(alloc, request, texts, &comparison)?;
    let sheet = ChangeSheet {
        comparison: &comparison,
        changes: told.as_slice(),
        broken: broken_told(allowed, broken.as_slice()),
    };
    let accepted = accepted_of(alloc, &sheet, &texts.accepted)?;
    let left = still_open(alloc, told.as_slice(), &accepted.changes)?;
    print_changes(alloc, request, &sheet, columns, sink)?;
    tell_unused(alloc, &request.files, &accepted, errors);
    let denied = request.concerns.denied.as_slice();
    Ok(broken_status(denied, has_broken(sheet.broken), left.as_slice()))
}

fn has_broken(broken: &[Broken]) -> bool
    ensures { broken.now ≡ [] → result ≡ false }
{
    !broken.is_empty()
}

// 1 where queries break and that is denied, else the status of the changes that are left.
fn broken_status(denied: &[Text], is_broken: bool, left: &[Change]) -> u8
    ensures { result ≡ broken_status denied.now is_broken left.now }
{
    if is_broken && denies_broken(denied) {
        1
    } else {
        diff_status(denied, left)
    }
}

// The queries that are broken, unless they are left out.
fn broken_told<'b>(allowed: &[Text], broken: &'b [Broken]) -> &'b [Broken]
    ensures { broken.now ≡ [] → result.now ≡ [] }
{
    if names(allowed, "broken-query") {
        &[]
    } else {
        broken
    }
}

// Writes what differs: as lines of JSON all, else as a table, and then the queries that are broken.
fn print_changes<W: Sink>(
    alloc: Global,
    request: &Request,
    sheet: &ChangeSheet<'_>,
    columns: u32,
    sink: &mut W,
) -> Result<(), KitFault>
    ensures { IfErr result IsDeviceFault }
{
    if request.options.json {
        return print_sheet(alloc, sink, sheet, request.options, columns);
    }
    let table = ChangeSheet {
        broken: &[],
        ..*sheet
    };
    if table.rows() > 0 {
        print_sheet(alloc, sink, &table, request.options, columns)?;
    } else if sheet.broken.is_empty() {
        print(sink, "nothing differs\n")?;
    }
    print_broken(alloc, sink, sheet)
}

// Writes the queries that are broken, the first in full.
fn print_broken<W: Sink>(
    alloc: Global,
    sink: &mut W,
    sheet: &ChangeSheet<'_>,
) -> Result<(), KitFault>
    ensures { IfErr result IsDeviceFault }
{
    for broken in sheet.broken {
        match lines_of(alloc, sheet.comparison, broken) {
            Ok(lines) => print(sink, lines.as_str())?,
            Err(_) => return Err(KitFault::Memory),
        }
    }
    print_more(alloc, sink, sheet.broken.len().saturating_sub(MOST_NOTES))
}

// Writes a report. The exit status.
#[tactic(auto, using(crate::proofs::Devices::delivery_is_no_refusal, crate::proofs::Reports::delivery_refuses_whole))]
fn run_report<F: Folder, W: Sink>(
    alloc: Global,
    request: &Request,
    texts: &Texts,
    folder: &mut F,
    sink: &mut W,
) -> Result<u8, ConsoleFault>
    ensures ok { IfOk result (Reports request.now texts.now
        (writing F.made W.contents folder.old folder.new sink.old sink.new)) }
    ensures first { IfErr result (RefusesWhole request.now.concerns.outlets texts.now) }
    ensures unmade { OnErr result (F.made folder.new ≡ F.made folder.old) }
    ensures unwritten { IfErr result (λ fault. IsRefusal fault → sink.new ≡ sink.old) }
{
    let report = report_of(alloc, request, texts)?;
    let page = report_page(alloc, request, texts, &report)?;
    put(&request.files.output, page.as_slice(), folder, sink)?;
    Ok(0)
}

// The fault that a request has no such file.
fn missing(role: Role) -> ConsoleFault
    ensures { result ≡ ConsoleFault.Unread role Unread.Missing }
{
    ConsoleFault::Unread {
        role,
        cause: Unread::Missing,
    }
}

// Replays a script. The exit status.
fn run_replay<W: Sink, E: Sink>(
    alloc: Global,
    request: &Request,
    texts: &Texts,
    sink: &mut W,
    errors: &mut E,
) -> Result<u8, ConsoleFault>
    ensures { Replays request.now texts.now
        (sink_run W.contents W.failures sink.old sink.new) result }
{
    let Some(script) = &texts.script else {
        return Err(missing(Role::Script));
    };
    let lines = lines(alloc, script.as_str().as_bytes())?;
    let parts = scripted(alloc, &texts.parts, &lines)?;
    replay_script(alloc, request, &parts, sink, errors)
}

// Replays the script of parts, and tells what its form does not show. The exit status.
fn replay_script<W: Sink, E: Sink>(
    alloc: Global,
    request: &Request,
    parts: &Parts<'_>,
    sink: &mut W,
    errors: &mut E,
) -> Result<u8, ConsoleFault>
    requires { IsSome parts.now.script }
    ensures { EndsScript request.now parts.now
        (sink_run W.contents W.failures sink.old sink.new) result }
{
    match replay_as(alloc, request, parts, sink) {
        Ok(()) => {
            tell_refused(alloc, request, parts, errors);
            Ok(0)
        }
        Err(fault) => Err(fault),
    }
}

// Replays the script of parts in the form that is asked for.
fn replay_as<W: Sink>(
    alloc: Global,
    request: &Request,
    parts: &Parts<'_>,
    sink: &mut W,
) -> Result<(), ConsoleFault>
    requires { IsSome parts.now.script }
    ensures { IsReplayEnd request.now parts.now
        (sink_run W.contents W.failures sink.old sink.new) result }
{
    let trial = is_trial(parts);
    match dialect_of(request.options.form) {
        Some(dialect) => replay_as_page(alloc, request, dialect, parts, trial, sink),
        None => replay_plain(alloc, request, parts, trial, sink),
    }
}

// The same in a form that is no page.
fn replay_plain<W: Sink>(
    alloc: Global,
    request: &Request,
    parts: &Parts<'_>,
    trial: bool,
    sink: &mut W,
) -> Result<(), ConsoleFault>
    requires form { dialect_of request.now.options.form ≡ None }
    requires needed { HasNeeded (needs_of (plain_options trial)) parts.now }
    ensures { EndsPlain request.now parts.now trial
        (sink_run W.contents W.failures sink.old sink.new) result }
{
    match replay_in_form(alloc, request, trial, parts, sink) {
        Ok(()) => Ok(()),
        Err(fault) => Err(ConsoleFault::Kit(fault)),
    }
}
