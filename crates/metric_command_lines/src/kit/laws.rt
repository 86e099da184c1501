//! Which command lines the program has, as its definitions tell clap of them.
ghost use Rattle.std.specs.Prelude.{List, ℕ, [], ◌∷◌, codes, true, false};
ghost use Rattle.metric_command_lines.specs.Lines.{IsRefused, Means};
ghost use Rattle.metric_command_lines.specs.declared.kit.line.Line.TheVariants.{Make, Check, Show, Replay, Threads};

/// Clap takes each line of the program, whatever the first word is, and this is what it means. Does
/// nothing.
pub fn lines_are_taken()
    ensures no_words { (name : List ℕ) → Means (name ∷ []) (Replay true false) }
    ensures make { (name : List ℕ) → Means (name ∷ codes "make" ∷ []) Make }
    ensures check { (name : List ℕ) → Means (name ∷ codes "check" ∷ []) Check }
    ensures show { (name : List ℕ) → Means (name ∷ codes "show" ∷ []) Show }
    ensures replay { (name : List ℕ) → Means (name ∷ codes "replay" ∷ []) (Replay false false) }
    ensures trial { (name : List ℕ) →
        Means (name ∷ codes "replay" ∷ codes "--trial" ∷ []) (Replay true false) }
    ensures audit { (name : List ℕ) →
        Means (name ∷ codes "replay" ∷ codes "--audit" ∷ []) (Replay false true) }
    ensures both { (name : List ℕ) →
        Means (name ∷ codes "replay" ∷ codes "--trial" ∷ codes "--audit" ∷ []) (Replay true true) }
    ensures turned { (name : List ℕ) →
        Means (name ∷ codes "replay" ∷ codes "--audit" ∷ codes "--trial" ∷ []) (Replay true true) }
    ensures none_each { (name : List ℕ) →
        Means (name ∷ codes "threads" ∷ codes "--each" ∷ codes "0" ∷ []) (Threads 0) }
    ensures some_each { (name : List ℕ) →
        Means (name ∷ codes "threads" ∷ codes "--each=12" ∷ []) (Threads 12) }
    ensures most_each { (name : List ℕ) →
        Means (name ∷ codes "threads" ∷ codes "--each" ∷ codes "1000000" ∷ []) (Threads 1000000) }
{}

/// Clap refuses each call for help and for the version, what is no command, a flag that is given twice,
/// has a value or belongs to another command, and `threads` without its number or with one that is not in
/// its range. Does nothing.
pub fn others_are_refused()
    ensures help { (name : List ℕ) → IsRefused (name ∷ codes "help" ∷ []) }
    ensures help_flag { (name : List ℕ) → IsRefused (name ∷ codes "--help" ∷ []) }
    ensures short_help { (name : List ℕ) → IsRefused (name ∷ codes "-h" ∷ []) }
    ensures help_of_command { (name : List ℕ) →
        IsRefused (name ∷ codes "show" ∷ codes "--help" ∷ []) }
    ensures version { (name : List ℕ) → IsRefused (name ∷ codes "--version" ∷ []) }
    ensures unknown { (name : List ℕ) → IsRefused (name ∷ codes "reply" ∷ []) }
    ensures no_command { (name : List ℕ) → IsRefused (name ∷ codes "--trial" ∷ []) }
    ensures twice { (name : List ℕ) →
        IsRefused (name ∷ codes "replay" ∷ codes "--trial" ∷ codes "--trial" ∷ []) }
    ensures audit_twice { (name : List ℕ) →
        IsRefused (name ∷ codes "replay" ∷ codes "--audit" ∷ codes "--audit" ∷ []) }
    ensures value { (name : List ℕ) →
        IsRefused (name ∷ codes "replay" ∷ codes "--trial=true" ∷ []) }
    ensures more { (name : List ℕ) →
        IsRefused (name ∷ codes "show" ∷ codes "--trial" ∷ []) }
    ensures audit_of_other { (name : List ℕ) →
        IsRefused (name ∷ codes "check" ∷ codes "--audit" ∷ []) }
    ensures no_each { (name : List ℕ) → IsRefused (name ∷ codes "threads" ∷ []) }
    ensures no_number { (name : List ℕ) →
        IsRefused (name ∷ codes "threads" ∷ codes "--each" ∷ []) }
    ensures above { (name : List ℕ) →
        IsRefused (name ∷ codes "threads" ∷ codes "--each" ∷ codes "1000001" ∷ []) }
    ensures below { (name : List ℕ) →
        IsRefused (name ∷ codes "threads" ∷ codes "--each=-1" ∷ []) }
{}
