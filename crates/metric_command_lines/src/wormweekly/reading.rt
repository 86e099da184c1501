//! The reading of a command line.
ghost use Rattle.std.specs.Prelude.{◌≡◌, ◌||◌, [], IfErr, IfOk, IsOk, IsSomeAnd, Ok, OnOk, Some, codes, is_some, map, not, true};
ghost use Rattle.std.specs.List.{list_any};
ghost use Rattle.std.specs.Str.{bytes_eq};
ghost use Rattle.clap.specs.Words.{fault_of, first_of, found_of, rows_of, subcommand_of, subcommand_rows_of, takes};
ghost use Rattle.metric_diff.specs.Kinds.{is_change};
ghost use Rattle.metric_lint.specs.Kinds.{is_kind};
ghost use Rattle.metric_command_lines.specs.Apps.{program_app};
ghost use Rattle.metric_command_lines.specs.Attributes.{resource_in};
ghost use Rattle.metric_command_lines.specs.RequestFaults.{IsAllowed, IsMisuse, IsNoRequest, IsNotAsked, IsOwn};
ghost use Rattle.metric_command_lines.specs.Standard.{output_of};
ghost use Rattle.metric_command_lines.specs.Requests.{certificate_in, denies_else, files_in, form_in, form_of, forms_else, has_word, old_in, options_in, request_in, resource_asked, script_in, task_of, text_in};
ghost use Rattle.metric_command_lines.specs.Requests.{language_in, languages_else};
ghost use Rattle.metric_command_lines.specs.Requests.{all_word, allows_else, concerns_in, asks_for_no_page, is_concern, is_denied, is_outlet, outlets_else, reads_else, words_in};

use crate::language::Language;
use crate::numbers::number_of;
use crate::wormweekly::attributes::{key_and_value, resource_of};
use crate::wormweekly::commands::program;
use crate::wormweekly::fault::{Misuse, RequestFault, fault_of};
use crate::wormweekly::request::{Concerns, Files, Form, Options, Request, Task};
use crate::wormweekly::standard::{output_of, reads_twice};
use clap::ArgMatches;
use metric_base::{Items, Text};
use metric_diff::is_change;
use metric_lint::is_kind;
use metric_promql::is_query_kind;
use metric_resource::Resource;
use std::alloc::{AllocError, Global};

/// What the words of a command line ask for. The first word is the program's name, whatever it is.
///
/// # Errors
///
/// [`RequestFault::Told`] for a call for help or for the version, with the text; [`RequestFault::Usage`] where clap
/// refuses the words for another cause, with its text; [`RequestFault::Nothing`] where they name no command;
/// [`RequestFault::Misused`] where an option is given what it does not take; and [`RequestFault::Memory`].
pub fn request_of<'a>(alloc: Global, words: &'a [&'a str]) -> Result<Request, RequestFault>
    ensures answers { IfOk result (λ request. IsSomeAnd
        (subcommand_of program_app (map (λ w. w.now) words.entry.now))
        (λ named. request ≡ request_in named)) }

    // Clap has a fault to tell of what it refuses, and none of the other words.
    ensures accepted { OnOk result
        (fault_of program_app (map (λ w. w.now) words.entry.now) ≡ []) }
    ensures allowed { OnOk result
        (IsAllowed (subcommand_of program_app (map (λ w. w.now) words.entry.now))) }
    ensures refused { IfErr result (λ fault.
        IsNoRequest fault (map (λ w. w.now) words.entry.now)) }
    ensures taken { takes program_app (map (λ w. w.now) words.entry.now) ≡ true →
        IfErr result IsOwn }
{
    let command = program(alloc)?;
    match command.try_get_matches_from(words) {
        Ok(matches) => request_from(alloc, &matches),
        Err(error) => Err(fault_of(alloc, &error)),
    }
}

// What the matches ask for.
fn request_from(alloc: Global, matches: &ArgMatches<'_>) -> Result<Request, RequestFault>
    ensures answers { IfOk result (λ request. IsSomeAnd (subcommand_rows_of matches.now)
        (λ named. request ≡ request_in named)) }
    ensures allowed { OnOk result (IsAllowed (subcommand_rows_of matches.now)) }
    ensures refused { IfErr result (λ fault. IsNotAsked fault (subcommand_rows_of matches.now)) }
{
    match matches.subcommand() {
        Some((command, arguments)) => named_request(alloc, command, arguments),
        None => Err(RequestFault::Nothing),
    }
}

// What a command asks for by its arguments.
fn named_request(
    alloc: Global,
    command: &str,
    arguments: &ArgMatches<'_>,
) -> Result<Request, RequestFault>
    ensures answers { IfOk result (λ request.
        request ≡ request_in (command.now, rows_of (found_of arguments.now))) }
    ensures allowed { OnOk result (IsOk (resource_asked (task_of command.now)
        (rows_of (found_of arguments.now)))) }
    ensures refused { IfErr result (λ fault.
        IsNotAsked fault (Some (command.now, rows_of (found_of arguments.now)))) }
{
    let task = task_of(command);
    let files = files_of(alloc, arguments)?;
    let resource = resource_asked(alloc, task, arguments, &files)?;
    let concerns = concerns_in(alloc, arguments)?;
    let reader = optional(alloc, arguments, "reader")?;
    Ok(Request {
        task,
        files,
        options: options_of(arguments),
        concerns,
        resource,
        reader,
    })
}

// The resource that is asked for, or the first misuse of an option.
#[tactic(auto, unfolding(crate::specs::Requests::resource_asked))]
fn resource_asked(
    alloc: Global,
    task: Task,
    arguments: &ArgMatches<'_>,
    files: &Files,
) -> Result<Resource, RequestFault>
    requires { files.now ≡ files_in (rows_of (found_of arguments.now)) }
    ensures given { IfOk result (λ resource.
        resource_asked task (rows_of (found_of arguments.now)) ≡ Ok resource) }
    ensures refused { IfErr result (λ fault.
        IsMisuse fault (resource_asked task (rows_of (found_of arguments.now)))) }
{
    if denies_else(task, arguments) {
        return Err(RequestFault::Misused(Misuse::Deny));
    }
    if allows_else(task, arguments) {
        return Err(RequestFault::Misused(Misuse::Allow));
    }
    if outlets_else(arguments) {
        return Err(RequestFault::Misused(Misuse::Outlet));
    }
    if forms_else(arguments) || asks_for_no_page(task, arguments) {
        return Err(RequestFault::Misused(Misuse::Form));
    }
    if has_text(arguments, "as") && has_word(arguments, "audit", "true") {
        return Err(RequestFault::Misused(Misuse::Audit));
    }
    if !has_text(arguments, "as") && has_text(arguments, "resource") {
        return Err(RequestFault::Misused(Misuse::Resource));
    }
    if reads_else(task, arguments) {
        return Err(RequestFault::Misused(Misuse::Reader));
    }
    if reads_twice(files) {
        return Err(RequestFault::Misused(Misuse::Input));
    }
    if languages_else(task, arguments) {
        return Err(RequestFault::Misused(Misuse::Language));
    }
    resource_given(alloc, arguments)
}

// Whether a reader is named where no page is printed; queries are always of pages.
fn reads_else(task: Task, arguments: &ArgMatches<'_>) -> bool
    ensures { result ≡ reads_else task (rows_of (found_of arguments.now)) }
{
    task != Task::Queries && has_text(arguments, "reader") && !form_in(arguments).is_page()
}

// Whether queries are to be held against what is no page.
fn asks_for_no_page(task: Task, arguments: &ArgMatches<'_>) -> bool
    ensures { result ≡ asks_for_no_page task (rows_of (found_of arguments.now)) }
{
    task == Task::Queries && has_text(arguments, "as") && !form_in(arguments).is_page()
}

// The language that `--for` names.
fn language_in(arguments: &ArgMatches<'_>) -> Option<Language>
    ensures { result ≡ language_in (rows_of (found_of arguments.now)) }
{
    match arguments.get_str("language") {
        Some(word) => Language::named(word),
        None => None,
    }
}

// Whether code is to be made, and no language is named.
fn languages_else(task: Task, arguments: &ArgMatches<'_>) -> bool
    ensures { result ≡ languages_else task (rows_of (found_of arguments.now)) }
{
    match language_in(arguments) {
        Some(_) => false,
        None => task == Task::Bind,
    }
}

// The resource that the words of all uses of `--resource` give.
fn resource_given(alloc: Global, arguments: &ArgMatches<'_>) -> Result<Resource, RequestFault>
    ensures given { IfOk result (λ resource.
        resource_in (words_in (codes "resource") (rows_of (found_of arguments.now)))
        ≡ Ok resource) }
    ensures refused { IfErr result (λ fault. IsMisuse fault
        (resource_in (words_in (codes "resource") (rows_of (found_of arguments.now))))) }
{
    match arguments.get_strs("resource") {
        Some(words) => resource_of(alloc, words),
        None => resource_of(alloc, &[]),
    }
}

// Whether an argument was given.
fn has_text(arguments: &ArgMatches<'_>, id: &str) -> bool
    ensures { result ≡ is_some (first_of id.now (rows_of (found_of arguments.now))) }
{
    arguments.get_str(id).is_some()
}

// The form that a replay has.
fn form_in(arguments: &ArgMatches<'_>) -> Form
    ensures { result ≡ form_in (rows_of (found_of arguments.now)) }
{
    match arguments.get_str("as") {
        Some(word) => form_of(word).unwrap_or(Form::Replies),
        None => Form::Replies,
    }
}

// The form that a word names.
fn form_of(word: &str) -> Option<Form>
    ensures { result ≡ form_of word.now }
{
    match word {
        "otlp-json" => Some(Form::OtlpLines),
        "otlp-bytes" => Some(Form::OtlpBytes),
        "prometheus" => Some(Form::Prometheus),
        "openmetrics" => Some(Form::OpenMetrics),
        "openmetrics-created" => Some(Form::OpenMetricsCreated),
        _ => None,
    }
}

// Whether `--as` was given a word that names no form.
fn forms_else(arguments: &ArgMatches<'_>) -> bool
    ensures { result ≡ forms_else (rows_of (found_of arguments.now)) }
{
    match arguments.get_str("as") {
        Some(word) => form_of(word).is_none(),
        None => false,
    }
}

// The command by its name.
fn task_of(command: &str) -> Task
    ensures { result ≡ task_of command.now }
{
    match command {
        "lint" => Task::Lint,
        "show" => Task::Show,
        "make" => Task::Make,
        "check" => Task::Check,
        "headroom" => Task::Headroom,
        "replay" => Task::Replay,
        "diff" => Task::Diff,
        "report" => Task::Report,
        "expand" => Task::Expand,
        "queries" => Task::Queries,
        "bind" => Task::Bind,
        _ => Task::Draw,
    }
}

fn files_of(alloc: Global, arguments: &ArgMatches<'_>) -> Result<Files, AllocError>
    ensures { IfOk result (λ files. files ≡ files_in (rows_of (found_of arguments.now))) }
{
    let old_catalogue = old_path(alloc, arguments, "old_catalogue", "old_config", "catalogue")?;
    let old_config = old_path(alloc, arguments, "old_config", "old_catalogue", "config")?;
    let catalogue = text_of(alloc, arguments, "catalogue")?;
    let config = text_of(alloc, arguments, "config")?;
    let certificate = certificate_of(alloc, arguments)?;
    let accepted = optional(alloc, arguments, "accepted")?;
    let script = script_of(alloc, arguments)?;
    let queries = words_in(alloc, arguments, "queries")?;
    let bound = optional(alloc, arguments, "bound")?;
    let output = output_in(alloc, arguments)?;
    Ok(Files {
        old_catalogue,
        old_config,
        catalogue,
        config,
        certificate,
        accepted,
        script,
        queries,
        bound,
        output,
    })
}

// The path of an old file: where the other old file alone is named, it is the new one.
fn old_path(
    alloc: Global,
    arguments: &ArgMatches<'_>,
    id: &str,
    other: &str,
    new: &str,
) -> Result<Option<Text>, AllocError>
    ensures { IfOk result (λ path.
        path ≡ old_in id.now other.now new.now (rows_of (found_of arguments.now))) }
{
    if !has_text(arguments, id) && has_text(arguments, other) {
        Ok(Some(text_of(alloc, arguments, new)?))
    } else {
        optional(alloc, arguments, id)
    }
}

// Of the two last files of a replay the certificate is the first, where there are two.
fn certificate_of(alloc: Global, arguments: &ArgMatches<'_>) -> Result<Option<Text>, AllocError>
    ensures { IfOk result (λ path. path ≡ certificate_in (rows_of (found_of arguments.now))) }
{
    match arguments.get_str("fourth") {
        Some(_) => optional(alloc, arguments, "third"),
        None => optional(alloc, arguments, "certificate"),
    }
}

fn script_of(alloc: Global, arguments: &ArgMatches<'_>) -> Result<Option<Text>, AllocError>
    ensures { IfOk result (λ path. path ≡ script_in (rows_of (found_of arguments.now))) }
{
    match arguments.get_str("fourth") {
        Some(_) => optional(alloc, arguments, "fourth"),
        None => optional(alloc, arguments, "third"),
    }
}

// The file to write to.
fn output_in(alloc: Global, arguments: &ArgMatches<'_>) -> Result<Option<Text>, AllocError>
    ensures { IfOk result (λ output.
        output ≡ output_of (first_of (codes "output") (rows_of (found_of arguments.now)))) }
{
    output_of(alloc, arguments.get_str("output"))
}

fn options_of(arguments: &ArgMatches<'_>) -> Options
    ensures { result ≡ options_in (rows_of (found_of arguments.now)) }
{
    Options {
        json: has_word(arguments, "json", "true"),
        audit: has_word(arguments, "audit", "true"),
        form: form_in(arguments),
        language: language_in(arguments),
        width: number_of(arguments, "width"),
        rate: number_of(arguments, "rate"),
        instances: number_of(arguments, "instances"),
        lasts: number_of(arguments, "lasts"),
    }
}

// The text of an argument that has to be given.
fn text_of(alloc: Global, arguments: &ArgMatches<'_>, id: &str) -> Result<Text, AllocError>
    ensures { IfOk result (λ text. text ≡ text_in id.now (rows_of (found_of arguments.now))) }
{
    match arguments.get_str(id) {
        Some(text) => Text::new(alloc, text),
        None => Text::new(alloc, ""),
    }
}

// The text of an argument, where it was given.
fn optional(alloc: Global, arguments: &ArgMatches<'_>, id: &str) -> Result<Option<Text>, AllocError>
    ensures { IfOk result (λ text. text ≡ first_of id.now (rows_of (found_of arguments.now))) }
{
    match arguments.get_str(id) {
        Some(text) => Ok(Some(Text::new(alloc, text)?)),
        None => Ok(None),
    }
}

// Whether an argument was given this word.
fn has_word(arguments: &ArgMatches<'_>, id: &str, word: &str) -> bool
    ensures { result ≡ has_word id.now word.now (rows_of (found_of arguments.now)) }
{
    arguments.get_str(id) == Some(word)
}

// Whether a use of `--deny` names neither a kind nor all.
fn denies_else(task: Task, arguments: &ArgMatches<'_>) -> bool
    ensures { result ≡ denies_else task (rows_of (found_of arguments.now)) }
{
    match arguments.get_strs("deny") {
        Some(words) => has_other_than_denied(task, words),
        None => false,
    }
}

fn has_other_than_denied(task: Task, words: &[&str]) -> bool
    ensures { result ≡ list_any (λ w. not (is_denied task w.now)) words.now }
{
    words.iter().any(|word| !is_denied(task, word))
}

fn is_denied(task: Task, word: &str) -> bool
    ensures { result ≡ is_denied task word.now }
{
    word == all_word(task) || is_concern(task, word)
}

// The word for all that may be denied.
fn all_word(task: Task) -> &'static str
    ensures { result.now ≡ all_word task }
{
    match task {
        Task::Diff => "breaking",
        _ => "remarks",
    }
}

// Whether a use of `--allow` names no kind.
fn allows_else(task: Task, arguments: &ArgMatches<'_>) -> bool
    ensures { result ≡ allows_else task (rows_of (found_of arguments.now)) }
{
    match arguments.get_strs("allow") {
        Some(words) => has_other_than_concerns(task, words),
        None => false,
    }
}

fn has_other_than_concerns(task: Task, words: &[&str]) -> bool
    ensures { result ≡ list_any (λ w. not (is_concern task w.now)) words.now }
{
    words.iter().any(|word| !is_concern(task, word))
}

// Whether a word is a kind of what the command tells: of remark, or of change.
fn is_concern(task: Task, word: &str) -> bool
    ensures { result ≡ is_concern task word.now }
{
    match task {
        Task::Diff => is_of_changes(word),
        Task::Queries => is_query_kind(word),
        _ => is_of_remarks(word),
    }
}

fn is_of_changes(word: &str) -> bool
    ensures { result ≡ (is_change word.now || bytes_eq word.now (codes "broken-query")) }
{
    is_change(word) || word == "broken-query"
}

fn is_of_remarks(word: &str) -> bool
    ensures { result ≡ (bytes_eq word.now (codes "exposure") || is_kind word.now) }
{
    word == "exposure" || is_kind(word)
}

// Which remarks or changes count.
fn concerns_in(alloc: Global, arguments: &ArgMatches<'_>) -> Result<Concerns, AllocError>
    ensures { IfOk result (λ concerns. concerns ≡ concerns_in (rows_of (found_of arguments.now))) }
{
    let allowed = words_in(alloc, arguments, "allow")?;
    let denied = words_in(alloc, arguments, "deny")?;
    let outlets = words_in(alloc, arguments, "for")?;
    let labels = words_in(alloc, arguments, "label")?;
    Ok(Concerns {
        allowed,
        denied,
        outlets,
        labels,
    })
}

// The words of all uses of an option.
fn words_in(alloc: Global, arguments: &ArgMatches<'_>, id: &str) -> Result<Items<Text>, AllocError>
    ensures { IfOk result (λ words. words ≡ words_in id.now (rows_of (found_of arguments.now))) }
{
    match arguments.get_strs(id) {
        Some(words) => owned(alloc, words),
        None => owned(alloc, &[]),
    }
}

fn owned(alloc: Global, words: &[&str]) -> Result<Items<Text>, AllocError>
    ensures { IfOk result (λ owned. owned ≡ map (λ w. w.now) words.now) }
{
    let mut owned = Items::new(alloc);
    for word in words {
        owned.push(Text::new(alloc, word)?)?;
    }
    Ok(owned)
}

// Whether a use of `--for` names no way out.
fn outlets_else(arguments: &ArgMatches<'_>) -> bool
    ensures { result ≡ outlets_else (rows_of (found_of arguments.now)) }
{
    match arguments.get_strs("for") {
        Some(words) => has_other_than_outlets(words),
        None => false,
    }
}

fn has_other_than_outlets(words: &[&str]) -> bool
    ensures { result ≡ list_any (λ w. not (is_outlet w.now)) words.now }
{
    words.iter().any(|word| !is_outlet(word))
}

// Whether a word names a way out, with a reader or without one.
fn is_outlet(word: &str) -> bool
    ensures { result ≡ is_outlet word.now }
{
    let (outlet, _) = key_and_value(word);
    outlet == "prometheus" || outlet == "otlp"
}
