//! The forms of the words.
ghost use Rattle.std.specs.Prelude.{◌≡◌, ◌∷◌, [], IfSome, IfNone};
ghost use Rattle.ask_command.specs.Words.{Form as WordsForm, Ask as AskForm, ask_words, form_words, octets_of_words};
ghost use Rattle.ask_command.specs.inner.Parsed.{ask_parsed, form_parsed};

/// What stands behind the address.
#[derive(Clone, Copy)]
pub(crate) enum Ask<'a> {
    Capabilities,
    Get(&'a str),
    Set(&'a str, &'a str),
    Delete(&'a str),
    Trial(&'a str, &'a str, &'a str, &'a str),
    Confirm(&'a str),
    Cancel(&'a str),
}

/// The form of the words: an address and what is asked of the target there, or one of the two words that stand alone.
#[derive(Clone, Copy)]
pub(crate) enum Form<'a> {
    Call(&'a str, Ask<'a>),
    Help,
    Version,
}

/// The form that the words have.
pub(crate) fn form_of(words: &[String]) -> Option<Form<'_>>
    ensures some { IfSome result (λ form. octets_of_words words.now ≡ form_words (form_parsed form)) }
    ensures none { IfNone result ((form : WordsForm) → octets_of_words words.now ≡ form_words form
        → ⊥) }
{
    match words {
        [only] => alone(only.as_str()),
        [address, word] => Some(Form::Call(address.as_str(), bare(word.as_str())?)),
        [address, word, first] => {
            let ask = with_one(word.as_str(), first.as_str())?;
            Some(Form::Call(address.as_str(), ask))
        }
        [address, word, path, json] => {
            let ask = with_two(word.as_str(), path.as_str(), json.as_str())?;
            Some(Form::Call(address.as_str(), ask))
        }
        [address, word, id, seconds, path, json] => {
            let ask = with_four(
                word.as_str(),
                id.as_str(),
                seconds.as_str(),
                path.as_str(),
                json.as_str(),
            )?;
            Some(Form::Call(address.as_str(), ask))
        }
        _ => None,
    }
}

/// A word that stands alone.
fn alone(word: &str) -> Option<Form<'static>>
    ensures some { IfSome result (λ form. word.now ∷ [] ≡ form_words (form_parsed form)) }
    ensures none { IfNone result ((form : WordsForm) → word.now ∷ [] ≡ form_words form → ⊥) }
{
    if word == "--help" {
        return Some(Form::Help);
    }
    if word == "--version" {
        return Some(Form::Version);
    }
    None
}

/// What a word by itself asks for.
fn bare(word: &str) -> Option<Ask<'static>>
    ensures some { IfSome result (λ ask. word.now ∷ [] ≡ ask_words (ask_parsed ask)) }
    ensures none { IfNone result ((ask : AskForm) → word.now ∷ [] ≡ ask_words ask → ⊥) }
{
    if word == "capabilities" {
        return Some(Ask::Capabilities);
    }
    None
}

/// What a word asks for that one word follows.
fn with_one<'a>(word: &str, first: &'a str) -> Option<Ask<'a>>
    ensures some { IfSome result (λ ask. word.now ∷ first.now ∷ [] ≡ ask_words (ask_parsed ask)) }
    ensures none { IfNone result ((ask : AskForm) → word.now ∷ first.now ∷ [] ≡ ask_words ask → ⊥) }
{
    if word == "get" {
        return Some(Ask::Get(first));
    }
    if word == "delete" {
        return Some(Ask::Delete(first));
    }
    if word == "confirm" {
        return Some(Ask::Confirm(first));
    }
    if word == "cancel" {
        return Some(Ask::Cancel(first));
    }
    None
}

/// What a word asks for that two words follow.
fn with_two<'a>(word: &str, path: &'a str, json: &'a str) -> Option<Ask<'a>>
    ensures some { IfSome result (λ ask.
        word.now ∷ path.now ∷ json.now ∷ [] ≡ ask_words (ask_parsed ask)) }
    ensures none { IfNone result ((ask : AskForm) →
        word.now ∷ path.now ∷ json.now ∷ [] ≡ ask_words ask → ⊥) }
{
    if word == "set" {
        return Some(Ask::Set(path, json));
    }
    None
}

/// What a word asks for that four words follow.
fn with_four<'a>(
    word: &str,
    id: &'a str,
    seconds: &'a str,
    path: &'a str,
    json: &'a str,
) -> Option<Ask<'a>>
    ensures some { IfSome result (λ ask.
        word.now ∷ id.now ∷ seconds.now ∷ path.now ∷ json.now ∷ [] ≡ ask_words (ask_parsed ask)) }
    ensures none { IfNone result ((ask : AskForm) →
        word.now ∷ id.now ∷ seconds.now ∷ path.now ∷ json.now ∷ [] ≡ ask_words ask → ⊥) }
{
    if word == "trial" {
        return Some(Ask::Trial(id, seconds, path, json));
    }
    None
}
