//! The languages that code is made for.
ghost use Rattle.std.specs.Prelude.{◌≡◌};
ghost use Rattle.metric_command_lines.specs.Languages.{language_of};

/// A language that code is made for.
#[derive(Clone, Copy, Debug, PartialEq, Eq)]
pub enum Language {
    /// Rust.
    Rust,
    /// Go.
    Go,
    /// Python.
    Python,
    /// C, also for C++.
    C,
    /// Rattle.
    Rattle,
}

impl Language {
    /// The language that a word names.
    pub fn named(word: &str) -> Option<Language>
        ensures { result ≡ language_of word.now }
    {
        match word {
            "rust" => Some(Language::Rust),
            "go" => Some(Language::Go),
            "python" => Some(Language::Python),
            "c" => Some(Language::C),
            "rattle" => Some(Language::Rattle),
            _ => None,
        }
    }
}
