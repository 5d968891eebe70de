//! The forms that may need threads: runs by threads, and a crawl.
ghost use Rattle.std.specs.Prelude.{◌≡◌, None, Some};
ghost use Rattle.afr_words.specs.Forms.{AreLive, AskLive, live_word};

/// What is done with a plan, and what is written of it: run by threads, its report, or its image; crawled, its report.
#[derive(Clone, Copy, Debug, PartialEq, Eq)]
pub enum LiveForm {
    Live,
    Crawl,
    Record,
}

/// The form that the words ask for: `live`, `crawl` or `record`, and no more. It takes no memory.
pub fn live_form_of(words: &[String]) -> Option<LiveForm>
    ensures some { (form : LiveForm) → result ≡ Some form → AskLive words.now form }
    ensures none { result ≡ None → AreLive words.now → ⊥ }
{
    match words {
        [word] => live_form_named(word.as_str()),
        _ => None,
    }
}

/// The form that a word alone asks for.
fn live_form_named(word: &str) -> Option<LiveForm>
    ensures some { (form : LiveForm) → result ≡ Some form → word.now ≡ live_word form }
    ensures none { result ≡ None → (form : LiveForm) → word.now ≡ live_word form → ⊥ }
{
    match word {
        "live" => Some(LiveForm::Live),
        "crawl" => Some(LiveForm::Crawl),
        "record" => Some(LiveForm::Record),
        _ => None,
    }
}
