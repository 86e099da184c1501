//! What a person is told.
ghost use Rattle.std.specs.Prelude.{◌≡◌};
ghost use Rattle.wormweekly_commands.specs.Faults.{status_of};
ghost use Rattle.wormweekly_commands.specs.Told.{IsLineEnd};

use crate::answer::Answer;
use crate::delivering::{flush, print};
use crate::exposures::Exposure;
use crate::fault::{ConsoleFault, Role, of_sheet};
use crate::listing::Listing;
use crate::message::Message;
use crate::notes::Notes;
use crate::page_words::page_message;
use crate::parts::Texts;
use crate::shown_path::shown;
use crate::telling_old::old_message;
use metric_base::Text;
use metric_command_lines::{Files, Misuse, Request, RequestFault};
use metric_io::Sink;
use metric_kit_commands::{Declared, KitFault, declared_of};
use metric_lint::{Remark, remark_of};
use metric_make::MakeFault;
use metric_messages::{
    NamedText, Pair, diagnose_catalogue, diagnose_certificate, diagnose_check, diagnose_config,
    diagnose_exposure, diagnose_make, diagnose_remark,
};
use metric_sheet::write_json;
use std::alloc::{AllocError, Global};

// The exit status where the words name no command, and where help cannot be written.
const USAGE: u8 = 2;

const UNWRITTEN: u8 = 5;

// From this status on a fault is of memory or of a device, and of no file that is read.
const OF_DEVICES: u8 = 4;

// So many warnings are told, since the place of each is looked for in the texts.
const MOST_WARNINGS: usize = 100;

/// Tells why a command line asks for nothing, and gives the exit status. Help and the version go to `sink`, and are
/// done.
pub(crate) fn tell_line<W: Sink, E: Sink>(fault: RequestFault, sink: &mut W, errors: &mut E) -> u8
    ensures { IsLineEnd fault (W.contents sink.old) (W.contents sink.new) result }
{
    match fault {
        RequestFault::Told(text) => match print(sink, text.as_str()) {
            Ok(()) => 0,
            Err(_) => unwritten(errors),
        },
        RequestFault::Usage(text) => misused(text.as_str(), errors),
        RequestFault::Nothing => misused("no command is named; try 'wormweekly --help'\n", errors),
        RequestFault::Misused(misuse) => misused(words_of(misuse), errors),
        RequestFault::Memory => {
            let _message = print(errors, "out of memory\n");
            4
        }
    }
}

// What is told of a misuse of an option.
fn words_of(misuse: Misuse) -> &'static str {
    match misuse {
        Misuse::Deny => "error: '--deny' knows no such kind; the help of the command lists them\n",
        Misuse::Allow =>
            "error: '--allow' knows no such kind; the help of the command lists them\n",
        Misuse::Outlet =>
            "error: '--for' knows 'prometheus' and 'otlp' alone, and behind '=' a reader\n",
        Misuse::Form => "error: '--as' knows no such form; try 'wormweekly replay --help'\n",
        Misuse::Language => "error: '--for' is to be 'rust', 'go', 'python', 'c' or 'rattle'\n",
        Misuse::Audit => "error: '--audit' audits replies, and with '--as' none are printed\n",
        Misuse::Resource => "error: '--resource' belongs to '--as'\n",
        Misuse::Reader => "error: '--reader' belongs to '--as prometheus' and the other pages\n",
        Misuse::Input =>
            "error: '-' is standard input, which can be read only once, and here two files are it\n",
        Misuse::NoEquals => "error: '--resource' takes KEY=VALUE, and a word has no '='\n",
        Misuse::TooMany => "error: '--resource' is given more than 64 times\n",
        Misuse::EmptyKey => "error: '--resource' has an attribute without a key\n",
        Misuse::RepeatedKey => "error: '--resource' has two attributes of one key\n",
    }
}

// Tells that help was not written.
fn unwritten<E: Sink>(errors: &mut E) -> u8
    ensures { result ≡ 5 }
{
    let _message = print(errors, "standard output: a write failed\n");
    UNWRITTEN
}

// Tells a misuse.
fn misused<E: Sink>(text: &str, errors: &mut E) -> u8
    ensures { result ≡ 2 }
{
    let _message = print(errors, text);
    USAGE
}

/// Tells why a command stops, as a line of JSON on `faults` where that is asked for and the fault is of files, else on
/// `errors`. Gives the exit status, which stands whatever becomes of the telling.
pub(crate) fn stop_in_form<X: Sink, E: Sink>(
    alloc: Global,
    request: &Request,
    texts: Option<&Texts>,
    fault: ConsoleFault,
    faults: &mut X,
    errors: &mut E,
) -> u8
    ensures { result ≡ status_of fault }
{
    if !request.options.json || fault.status() >= OF_DEVICES {
        return stop(alloc, request, texts, fault, errors);
    }
    let _message = match fault_message(alloc, request, texts, fault) {
        Ok(told) => print_message(alloc, faults, &told),
        Err(_) => print(errors, "out of memory\n"),
    };
    fault.status()
}

/// Tells why a command stops, and gives the exit status, which stands whatever becomes of the telling.
pub(crate) fn stop<E: Sink>(
    alloc: Global,
    request: &Request,
    texts: Option<&Texts>,
    fault: ConsoleFault,
    errors: &mut E,
) -> u8
    ensures { result ≡ status_of fault }
{
    let _message = match fault_message(alloc, request, texts, fault) {
        Ok(told) => print(errors, told.text.as_str()),
        Err(_) => print(errors, "out of memory\n"),
    };
    fault.status()
}

// Writes a fault as a line of JSON.
fn print_message<X: Sink>(alloc: Global, faults: &mut X, told: &Message) -> Result<(), KitFault> {
    match write_json(alloc, faults, told) {
        Ok(()) => flush(faults),
        Err(fault) => Err(of_sheet(fault)),
    }
}

/// Tells what is to be warned of beside an answer that is written, whatever becomes of the telling.
pub(crate) fn warn<E: Sink>(
    alloc: Global,
    request: &Request,
    texts: &Texts,
    answer: &Answer,
    errors: &mut E,
) {
    let _message = match answer {
        Answer::Streams(listing) => match warnings_of(alloc, &request.files, texts, listing) {
            Ok(text) => print(errors, text.as_str()),
            Err(_) => print(errors, "out of memory\n"),
        },
        _ => Ok(()),
    };
}

// What is told of the first warnings of a listing, and how many more there are.
fn warnings_of(
    alloc: Global,
    files: &Files,
    texts: &Texts,
    listing: &Listing,
) -> Result<String, AllocError> {
    let mut told = String::new(alloc);
    let warnings = listing.streams.warnings();
    for warning in warnings.iter().take(MOST_WARNINGS) {
        let remark = remark_of(*warning);
        push_note(alloc, &mut told, files, texts, &listing.declared, remark)?;
    }
    if warnings.len() > MOST_WARNINGS {
        let more = warnings.len() - MOST_WARNINGS;
        write!(told, "and {more} more warnings\n")?;
    }
    Ok(told)
}

// A fault with its file and its place.
fn fault_message(
    alloc: Global,
    request: &Request,
    texts: Option<&Texts>,
    fault: ConsoleFault,
) -> Result<Message, AllocError> {
    let files = &request.files;
    match fault {
        ConsoleFault::Unread { role, cause } => {
            Message::of_file(alloc, path_of(files, role), cause.words())
        }
        ConsoleFault::Overwrites { role } => overwritten_message(alloc, files, role),
        ConsoleFault::Unwritten { cause } => Message::of_file(
            alloc,
            output_of(files),
            cause.words(),
        ),
        ConsoleFault::Page(fault) => page_message(alloc, request, texts, fault),
        ConsoleFault::Old(fault) => old_message(alloc, files, texts, fault),
        ConsoleFault::Kit(KitFault::Write) => {
            Message::of_file(alloc, "standard output", "a write failed")
        }
        ConsoleFault::Kit(fault) => match texts {
            Some(texts) => kit_message(alloc, files, texts, fault),
            None => Message::plain(alloc, fault),
        },
    }
}

fn overwritten_message(alloc: Global, files: &Files, role: Role) -> Result<Message, AllocError> {
    let input = path_of(files, role);
    let words = format!(in alloc; "it is not written, since it is the file {input} that is read")?;
    Message::of_file(alloc, output_of(files), words.as_str())
}

// The path of the file to write to.
fn output_of(files: &Files) -> &str {
    match &files.output {
        Some(path) if !path.as_str().is_empty() => path.as_str(),
        _ => "''",
    }
}

/// What a file is called.
pub(crate) fn path_of(files: &Files, role: Role) -> &str {
    shown(named(files, role))
}

// The path of a file, or what it is where the words have none.
fn named(files: &Files, role: Role) -> &str {
    match role {
        Role::OldCatalogue => match &files.old_catalogue {
            Some(path) => path.as_str(),
            None => "old catalogue",
        },
        Role::OldConfig => match &files.old_config {
            Some(path) => path.as_str(),
            None => "old config",
        },
        Role::Catalogue => files.catalogue.as_str(),
        Role::Config => files.config.as_str(),
        Role::Certificate => match &files.certificate {
            Some(path) => path.as_str(),
            None => "certificate",
        },
        Role::Accepted => match &files.accepted {
            Some(path) => path.as_str(),
            None => "accepted changes",
        },
        Role::Script => match &files.script {
            Some(path) => path.as_str(),
            None => "script",
        },
        Role::Queries { number } => match files.queries.as_slice().get(number) {
            Some(path) => path.as_str(),
            None => "queries",
        },
        Role::Bound => match &files.bound {
            Some(path) => path.as_str(),
            None => "code",
        },
    }
}

/// A fault that `metric_kit` has too, with its place and its cause where it has these.
pub(crate) fn kit_message(
    alloc: Global,
    files: &Files,
    texts: &Texts,
    fault: KitFault,
) -> Result<Message, AllocError> {
    match fault {
        KitFault::Catalogue(fault) => {
            let source = source_of(&files.catalogue, &texts.parts.catalogue);
            Message::diagnosed(alloc, diagnose_catalogue(alloc, source, fault))
        }
        KitFault::Config(fault) => {
            let source = source_of(&files.config, &texts.parts.config);
            Message::diagnosed(alloc, diagnose_config(alloc, source, fault))
        }
        KitFault::Make(fault) => make_message(alloc, files, texts, fault),
        KitFault::Input { line } => script_message(alloc, files, texts, line),
        KitFault::Certificate(_) | KitFault::Check(_) => {
            certificate_message(alloc, files, texts, fault)
        }
        _ => Message::plain(alloc, fault),
    }
}

// A fault of a certificate, or of its check.
fn certificate_message(
    alloc: Global,
    files: &Files,
    texts: &Texts,
    fault: KitFault,
) -> Result<Message, AllocError> {
    let (Some(path), Some(text)) = (&files.certificate, &texts.parts.certificate) else {
        return Message::plain(alloc, fault);
    };
    match fault {
        KitFault::Certificate(fault) => {
            let source = source_of(path, text);
            Message::diagnosed(alloc, diagnose_certificate(alloc, source, fault))
        }
        KitFault::Check(fault) => {
            let source = source_of(path, text);
            Message::diagnosed(alloc, diagnose_check(alloc, source, fault))
        }
        _ => Message::plain(alloc, fault),
    }
}

// Which part of safety fails.
fn make_message(
    alloc: Global,
    files: &Files,
    texts: &Texts,
    fault: MakeFault,
) -> Result<Message, AllocError> {
    match declared_of(alloc, &texts.parts) {
        Ok(declared) => {
            let pair = pair_of(files, texts, &declared);
            Message::diagnosed(alloc, diagnose_make(alloc, pair, fault))
        }
        Err(fault) => Message::plain(alloc, fault),
    }
}

pub(crate) fn source_of<'t>(path: &'t Text, text: &'t Text) -> NamedText<'t> {
    NamedText {
        name: shown(path.as_str()),
        text: text.as_str(),
    }
}

/// The catalogue and the config, with the texts that they were read from.
pub(crate) fn pair_of<'t>(files: &'t Files, texts: &'t Texts, declared: &'t Declared) -> Pair<'t> {
    Pair {
        catalogue: &declared.catalogue,
        catalogue_source: source_of(&files.catalogue, &texts.parts.catalogue),
        config: &declared.config,
        config_source: source_of(&files.config, &texts.parts.config),
    }
}

/// The old catalogue and config of a comparison, with the texts that they were read from.
pub(crate) fn old_pair_of<'t>(
    files: &'t Files,
    texts: &'t Texts,
    declared: &'t Declared,
) -> Pair<'t> {
    let parts = match &texts.old {
        Some(parts) => parts,
        None => &texts.parts,
    };
    Pair {
        catalogue: &declared.catalogue,
        catalogue_source: named_source(&files.old_catalogue, &parts.catalogue),
        config: &declared.config,
        config_source: named_source(&files.old_config, &parts.config),
    }
}

/// A text with the path of its file, which may lack.
pub(crate) fn named_source<'t>(path: &'t Option<Text>, text: &'t Text) -> NamedText<'t> {
    match path {
        Some(path) => source_of(path, text),
        None => NamedText {
            name: "",
            text: text.as_str(),
        },
    }
}

// The line of the script at which it is none; of one that no line starts, no place.
fn script_message(
    alloc: Global,
    files: &Files,
    texts: &Texts,
    line: u64,
) -> Result<Message, AllocError> {
    let path = path_of(files, Role::Script);
    let text = match &texts.script {
        Some(script) => script.as_str(),
        None => "",
    };
    let place = usize::try_from(line.saturating_sub(1)).unwrap_or(usize::MAX);
    match text.lines().nth(place) {
        None => Message::of_file(alloc, path, UNSTARTED),
        Some(_) if is_begin(text, place) => {
            Message::of_line(alloc, path, place.saturating_add(1), UNSTARTED)
        }
        Some(line) => Message::of_line(alloc, path, place.saturating_add(1), cause_of_line(line)),
    }
}

// Whether no line of a script before this place says anything.
fn is_begin(script: &str, place: usize) -> bool {
    script
        .lines()
        .take(place)
        .all(|line| line.is_empty() || line.starts_with('#'))
}

// Why a line of a script is no event, as far as its ends and its first word say.
fn cause_of_line(line: &str) -> &'static str {
    if line.starts_with(' ') || line.ends_with(' ') {
        return "this line is no event: a space stands at its end or its beginning";
    }
    match line.split(' ').next() {
        Some("record") => RECORD,
        Some("collect") => "this line is no event 'collect READER INSTRUMENT TIME'",
        Some("grant") => "this line is no event 'grant RECORDER INSTRUMENT RECORDINGS'",
        Some("close") => "this line is no event 'close INSTRUMENT'",
        Some("start") => "a script has one line 'start TIME', and this is another",
        _ => "this line is no event: one begins with 'record', 'collect', 'grant' or 'close'",
    }
}

const UNSTARTED: &str = "no start line: a script begins with one, such as 'start 0'";

const RECORD: &str =
    "this line is no event 'record RECORDER INSTRUMENT VALUE \"KEY\"=VALUE', with as many attributes as wanted";

/// Puts what is told of an exposure last, with the line that it is in.
pub(crate) fn push_exposure(
    alloc: Global,
    note: &mut String,
    files: &Files,
    texts: &Texts,
    notes: &Notes,
    exposure: Exposure,
) -> Result<(), AllocError> {
    let pair = pair_of(files, texts, &notes.declared);
    let Exposure { outlet, fault } = exposure;
    let streams = notes.streams.as_slice();
    let told = Message::diagnosed(
        alloc,
        diagnose_exposure(alloc, pair, streams, outlet, fault),
    )?;
    note.push_str(told.text.as_str())
}

/// Puts what a remark says last, with the line that it is in.
pub(crate) fn push_note(
    alloc: Global,
    note: &mut String,
    files: &Files,
    texts: &Texts,
    declared: &Declared,
    remark: Remark,
) -> Result<(), AllocError> {
    let pair = pair_of(files, texts, declared);
    let told = Message::diagnosed(alloc, diagnose_remark(alloc, pair, remark))?;
    note.push_str(told.text.as_str())
}
