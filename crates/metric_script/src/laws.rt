//! What the definitions of a script and of its first fault entail.
ghost use Rattle.std.specs.Prelude.{◌≡◌, ◌<◌, ◌^◌, ◌∷◌, ℕ, List, map};
ghost use Rattle.std.specs.List.{AllByRecursion};
ghost use Rattle.metric_history.specs.declared.event.Event.{Event};
ghost use Rattle.metric_script.specs.Spelling.{FitsEvent, event_text, start_text};
ghost use Rattle.metric_script.specs.Scripts.{IsScript, IsFirstFault};

/// Each start and list of events has a script. An event has one spelling, lines are the script of one start and one
/// list of events only, and they have one first fault unless they are a script. So [`events_of`](crate::events_of) has
/// one answer that is not out of memory. Does nothing.
pub fn one_script()
    ensures script { (start : ℕ) (events : List Event)
        → start < 2 ^ 64 → AllByRecursion FitsEvent events
        → IsScript (start_text start ∷ map event_text events) start events }
    ensures event { (a b : Event)
        → FitsEvent a → FitsEvent b → event_text a ≡ event_text b → a ≡ b }
    ensures start { (lines : List (List ℕ)) (s t : ℕ) (a b : List Event)
        → IsScript lines s a → IsScript lines t b → s ≡ t }
    ensures events { (lines : List (List ℕ)) (s t : ℕ) (a b : List Event)
        → IsScript lines s a → IsScript lines t b → a ≡ b }
    ensures fault { (lines : List (List ℕ)) (m n : ℕ)
        → IsFirstFault lines m → IsFirstFault lines n → m ≡ n }
    ensures apart { (lines : List (List ℕ)) (s : ℕ) (a : List Event) (n : ℕ)
        → IsScript lines s a → IsFirstFault lines n → ⊥ }
{}
