//! The word that was meant, where one is near.
ghost use Rattle.std.specs.Prelude.{◌≡◌, ◌≤◌, find, length, map, reverse};
ghost use Rattle.std.specs.Option.{option_copied};
ghost use Rattle.metric_messages.specs.Near.{alike, apart, is_as_near, is_near, is_nearest, least_apart, nearer, shared};

/// Of the words that are a slip of the hand away from a text the first of the nearest, or none where none is near. A
/// word is near where both begin and end alike, but for two letters at most in the middle, and share more than those.
pub fn nearest<'w>(text: &str, words: &[&'w str]) -> Option<&'w str>
    ensures { result
        ≡ find (λ word. is_nearest text.now (map (λ w. w.now) words.now) word.now) words.now }
{
    first_as_near(text, words, least_apart(text, words))
}

fn first_as_near<'w>(text: &str, words: &[&'w str], least: usize) -> Option<&'w str>
    ensures { result ≡ find (λ word. is_as_near text.now least word.now) words.now }
{
    match find_as_near(text, words, least) {
        Some(word) => Some(*word),
        None => None,
    }
}

fn find_as_near<'a, 'w>(text: &str, words: &'a [&'w str], least: usize) -> Option<&'a &'w str>
    ensures { option_copied result
        ≡ find (λ word. is_as_near text.now least word.now) words.now }
{
    words.iter().find(|word| is_as_near(text, word, least))
}

// How many letters stand between in the nearest of the near words; 2, the most for a near one, where none is near.
fn least_apart(text: &str, words: &[&str]) -> usize
    ensures { result ≡ least_apart text.now (map (λ w. w.now) words.now) }
{
    words
        .iter()
        .fold(2, |least: usize, word: &&str| nearer(text, word, least))
}

fn nearer(text: &str, word: &str, least: usize) -> usize
    ensures { result ≡ nearer text.now least word.now }
{
    let (text, word) = (text.as_bytes(), word.as_bytes());
    if is_near(text, word) {
        least.min(apart(text, word))
    } else {
        least
    }
}

fn is_as_near(text: &str, word: &str, least: usize) -> bool
    ensures { result ≡ is_as_near text.now least word.now }
{
    let (text, word) = (text.as_bytes(), word.as_bytes());
    is_near(text, word) && apart(text, word) <= least
}

// Whether both begin and end alike, but for two letters at most in the middle, and share more than those.
fn is_near(text: &[u8], word: &[u8]) -> bool
    ensures { result ≡ is_near text.now word.now }
{
    let apart = apart(text, word);
    apart <= 2 && apart < shared(text, word)
}

// How many letters of the longer one stand between.
fn apart(text: &[u8], word: &[u8]) -> usize
    ensures { result ≡ apart text.now word.now }
{
    text.len().max(word.len()) - shared(text, word)
}

fn shared(text: &[u8], word: &[u8]) -> usize
    ensures exact { result ≡ shared text.now word.now }
    ensures few { result ≤ length text.now }
{
    let begin = first_alike(text, word);
    let end = last_alike(text, word);
    (begin + end).min(text.len().min(word.len()))
}

// How many letters both begin with that are the same.
fn first_alike(text: &[u8], word: &[u8]) -> usize
    ensures exact { result ≡ alike text.now word.now }
    ensures few { result ≤ length text.now }
{
    let most = text.len().min(word.len());
    for place in 0..most {
        if text[place] != word[place] {
            return place;
        }
    }
    most
}

// How many letters both end with that are the same.
fn last_alike(text: &[u8], word: &[u8]) -> usize
    ensures exact { result ≡ alike (reverse text.now) (reverse word.now) }
    ensures few { result ≤ length text.now }
{
    let most = text.len().min(word.len());
    for place in 0..most {
        if text[text.len() - 1 - place] != word[word.len() - 1 - place] {
            return place;
        }
    }
    most
}
