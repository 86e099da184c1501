//! What a command line asks for.
ghost use Rattle.std.specs.Prelude.{◌≡◌};
ghost use Rattle.metric_command_lines.specs.Forms.{is_page};

use crate::language::Language;
use metric_base::{Items, Text};
use metric_resource::Resource;

/// A command of the program.
#[derive(Clone, Copy, Debug, PartialEq, Eq)]
pub enum Task {
    /// Print what looks like a mistake in a catalogue and a config.
    Lint,
    /// Print the streams of a config.
    Show,
    /// Make a certificate that a catalogue and a config are safe.
    Make,
    /// Check a certificate that a catalogue and a config are safe.
    Check,
    /// Print how often each instrument may be recorded.
    Headroom,
    /// Replay a script and print its replies.
    Replay,
    /// Draw the streams of a config.
    Draw,
    /// Print what a change of a catalogue or a config does.
    Diff,
    /// Write all of this as a page for people.
    Report,
    /// Print a catalogue of format 3 as the catalogue of format 2 that it means.
    Expand,
    /// Print what queries ask for that no page can have.
    Queries,
    /// Make code of a catalogue, or compare it with a file.
    Bind,
}

/// The paths of the files that a command reads and writes. One of those that are read may be `-`, standard input.
#[derive(Debug, Drop)]
pub struct Files {
    /// Where the old catalogue is, where the command compares two. There is an old config then too.
    pub old_catalogue: Option<Text>,
    /// Where the old config is, where the command compares two.
    pub old_config: Option<Text>,
    /// Where the catalogue is.
    pub catalogue: Text,
    /// Where the config is; empty where the command reads none.
    pub config: Text,
    /// Where the certificate is, where the command has one.
    pub certificate: Option<Text>,
    /// Where the changes are that are accepted, where the command has such a file.
    pub accepted: Option<Text>,
    /// Where the script is, where the command has one.
    pub script: Option<Text>,
    /// Where the queries are, where the command has such files.
    pub queries: Items<Text>,
    /// Where the code is that is compared with what is made, where the command has such a file.
    pub bound: Option<Text>,
    /// The file to write to, in place of standard output; never `-`, which is that.
    pub output: Option<Text>,
}

/// What a replay prints.
#[derive(Clone, Copy, Debug, PartialEq, Eq)]
pub enum Form {
    /// Each reply, as a line.
    Replies,
    /// Each batch as a line of OTLP/JSON.
    OtlpLines,
    /// Each batch as the bytes of an OTLP request.
    OtlpBytes,
    /// The last batches of a reader as a page of the text format 0.0.4 of Prometheus.
    Prometheus,
    /// The same as a page of OpenMetrics 1.0.
    OpenMetrics,
    /// The same with the lines `_created`.
    OpenMetricsCreated,
}

impl Form {
    /// Whether it is a page, which has the batches of one reader.
    pub fn is_page(self) -> bool
        ensures { result ≡ is_page self }
    {
        match self {
            Form::Replies | Form::OtlpLines | Form::OtlpBytes => false,
            Form::Prometheus | Form::OpenMetrics | Form::OpenMetricsCreated => true,
        }
    }
}

/// How a command is done. What does not belong to the command is off, or zero.
#[derive(Clone, Copy, Debug, PartialEq, Eq)]
pub struct Options {
    /// Whether the answer is lines of JSON.
    pub json: bool,
    /// Whether the replies are audited before they are printed.
    pub audit: bool,
    /// What a replay prints.
    pub form: Form,
    /// The language that code is made for.
    pub language: Option<Language>,
    /// How wide a table may be, in columns: 0 where it is not said.
    pub width: u32,
    /// How many recordings a second a process makes on an instrument.
    pub rate: u32,
    /// How many processes a backend adds up.
    pub instances: u32,
    /// How many seconds the recordings of each instrument are to last at the rate: 0 where it is not said.
    pub lasts: u32,
}

/// Which remarks count, and of `diff` which changes.
#[derive(Debug, Drop)]
pub struct Concerns {
    /// The kinds that are left out.
    pub allowed: Items<Text>,
    /// The kinds that are errors; `remarks` stands for all remarks, and `breaking` for each change that breaks.
    pub denied: Items<Text>,
    /// The ways out for which remarks are made: `prometheus` or `otlp`, or one of them with `=` and the name of a reader.
    pub outlets: Items<Text>,
    /// The labels that a server adds to each line, beside `job` and `instance`.
    pub labels: Items<Text>,
}

/// What a command line asks for.
#[derive(Drop)]
pub struct Request {
    /// The command.
    pub task: Task,
    /// The paths of its files.
    pub files: Files,
    /// How it is done.
    pub options: Options,
    /// Which remarks or changes count.
    pub concerns: Concerns,
    /// The attributes of what produces the batches that a replay prints.
    pub resource: Resource,
    /// The name of the reader whose page is printed, where it is said.
    pub reader: Option<Text>,
}
