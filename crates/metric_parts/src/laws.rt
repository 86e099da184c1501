//! What the definitions of an input and of its first fault entail.
ghost use Rattle.std.specs.Prelude.{◌≡◌, ℕ, List};
ghost use Rattle.metric_parts.specs.declared.needs.Needs.{Needs};
ghost use Rattle.metric_parts.specs.Input.{Contents, IsInput, IsFirstFault};

/// An input has its parts in one way only, and lines have one first fault unless they are an input. So
/// [`parts_of`](crate::parts_of) has one answer that is not out of memory.
pub fn one_reading()
    ensures parts { (needs : Needs) (lines : List (List ℕ)) (a b : Contents)
        → IsInput needs lines a → IsInput needs lines b → a ≡ b }
    ensures fault { (needs : Needs) (lines : List (List ℕ)) (m n : ℕ)
        → IsFirstFault needs lines m → IsFirstFault needs lines n → m ≡ n }
    ensures apart { (needs : Needs) (lines : List (List ℕ)) (parts : Contents) (n : ℕ)
        → IsInput needs lines parts → IsFirstFault needs lines n → ⊥ }
{}
