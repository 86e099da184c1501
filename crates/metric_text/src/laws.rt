//! What the spellings promise, as laws of their definitions.
ghost use Rattle.std.specs.Prelude.{◌≡◌, ◌<◌, ◌≤◌, ◌^◌, ℕ, ℤ, List, Some, ◌++◌, FitsSigned, IsUtf8};
ghost use Rattle.std.specs.Fmt.{decimal, signed_decimal};
ghost use Rattle.std.specs.Int.{w64};
ghost use Rattle.metric_names.specs.declared.value.AttrValue.{AttrValue};
ghost use Rattle.metric_text.specs.Reading.{number_in, number_of, signed_in, signed_of};
ghost use Rattle.metric_text.specs.ReadingLaws.{IsWordEnd};
ghost use Rattle.metric_text.specs.ValueLaws.{ReadsText, ReadsValue};
ghost use Rattle.metric_text.specs.Written.{IsValue, quoted, value_text};

/// Each text and each attribute value has one spelling, what is spelled is read, and what is read
/// is spelled so. Does nothing.
pub fn each_value_has_one_spelling()
    ensures one_text { (text other : List ℕ) → quoted text ≡ quoted other → text ≡ other }
    ensures text_read { (text rest : List ℕ)
        → IsUtf8 text → ReadsText (quoted text ++ rest) text rest }
    ensures text_spelled { (bytes text rest : List ℕ)
        → ReadsText bytes text rest → bytes ≡ quoted text ++ rest }
    ensures one_value { (value other : AttrValue)
        → IsValue value → IsValue other → value_text value ≡ value_text other → value ≡ other }
    ensures value_read { (value : AttrValue) (rest : List ℕ)
        → IsValue value → IsWordEnd rest → ReadsValue (value_text value ++ rest) value rest }
    ensures value_spelled { (bytes : List ℕ) (value : AttrValue) (rest : List ℕ)
        → ReadsValue bytes value rest → bytes ≡ value_text value ++ rest }
{}

/// Each number has one spelling, its decimal one: it is read, and what is read as a number is its
/// spelling; so two numbers have two spellings. The first four clauses are of whole words, the
/// others of the word that stands first. Does nothing.
pub fn each_number_has_one_spelling()
    ensures word_read { (limit n : ℕ)
        → n < limit → limit ≤ 2 ^ 64 → number_of limit (decimal n) ≡ Some n }
    ensures word_spelled { (limit n : ℕ) (word : List ℕ)
        → number_of limit word ≡ Some n → (n < limit) × (word ≡ decimal n) }
    ensures signed_word_read { (z : ℤ) → FitsSigned w64 z → signed_of (signed_decimal z) ≡ Some z }
    ensures signed_word_spelled { (z : ℤ) (word : List ℕ)
        → signed_of word ≡ Some z → FitsSigned w64 z × (word ≡ signed_decimal z) }

    ensures read { (limit n : ℕ) (rest : List ℕ) → n < limit → limit ≤ 2 ^ 64 → IsWordEnd rest
        → number_in limit (decimal n ++ rest) ≡ Some (n, rest) }
    ensures spelled { (limit n : ℕ) (bytes rest : List ℕ)
        → number_in limit bytes ≡ Some (n, rest) → (n < limit) × (bytes ≡ decimal n ++ rest) }
    ensures signed_read { (z : ℤ) (rest : List ℕ) → FitsSigned w64 z → IsWordEnd rest
        → signed_in (signed_decimal z ++ rest) ≡ Some (z, rest) }
    ensures signed_spelled { (z : ℤ) (bytes rest : List ℕ) → signed_in bytes ≡ Some (z, rest)
        → FitsSigned w64 z × (bytes ≡ signed_decimal z ++ rest) }
{}
