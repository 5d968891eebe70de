//! The forms of the program's words.
ghost use Rattle.std.specs.Prelude.{◌≡◌, ◌∷◌, [], IfSome, None};
ghost use Rattle.afr_words.specs.Forms.{AreWordsOf};

/// What is written: of a plan that was run its report, its log, or what needs heal; the summary of the generated
/// load of this number; or the report of a recorded run that is made again and goes on, with so many turns.
#[derive(Clone, Copy, Debug, PartialEq, Eq)]
pub enum Form {
    Run,
    Trace,
    Info,
    Gen(u32),
    Replay(u32),
}

/// The form that a word alone asks for.
pub(crate) fn form_named(word: &str) -> Option<Form>
    ensures some { IfSome result (λ form. AreWordsOf form (word.now ∷ [])) }
    ensures none { result ≡ None → (form : Form) → AreWordsOf form (word.now ∷ []) → ⊥ }
{
    match word {
        "run" => Some(Form::Run),
        "trace" => Some(Form::Trace),
        "info" => Some(Form::Info),
        _ => None,
    }
}
