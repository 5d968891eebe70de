//! The names of a directory in the order of their bytes.
ghost use Rattle.std.specs.Prelude.{◌≡◌, ◌++◌, IfOk, OnOk, codes, flat_map, map, slice_index_or, [], string_bytes};
ghost use Rattle.afr_model.specs.ReportReplies.{in_order, name_texts, names_text};

use crate::words::{push_bytes_as_text, word_at};
use afr_base::{NameId, NoMemory};
use afr_object::{Entry, NameList};
use afr_plan::Words;
use std::alloc::Global;

/// Adds what a listing gave: the names after spaces, or a dash where there are none. It takes
/// O(k log k) comparisons of k names.
pub fn push_names(out: &mut String, words: &Words, names: &NameList) -> Result<(), NoMemory>
    ensures ok { OnOk result (string_bytes out.new ≡ string_bytes out.old ++ names_text (in_order (name_texts words.now names.now))) }
{
    let texts = ordered(*out.allocator(), words, names.as_slice())?;
    push_texts(out, texts.as_slice())
}

fn push_texts(out: &mut String, texts: &[&[u8]]) -> Result<(), NoMemory>
    ensures ok { OnOk result (string_bytes out.new ≡ string_bytes out.old ++ names_text (map (λ text. text.now) texts.now)) }
{
    if texts.is_empty() {
        out.push_str("ok -")?;
        return Ok(());
    }
    out.push_str("ok")?;
    push_spaced(out, texts)
}

fn push_spaced(out: &mut String, texts: &[&[u8]]) -> Result<(), NoMemory>
    ensures ok { OnOk result (string_bytes out.new ≡ string_bytes out.old ++ flat_map (λ text. codes " " ++ text) (map (λ text. text.now) texts.now)) }
{
    for text in texts {
        out.push(' ')?;
        push_bytes_as_text(out, *text)?;
    }
    Ok(())
}

fn ordered<'a>(
    alloc: Global,
    words: &'a Words,
    names: &[(NameId, Entry)],
) -> Result<Vec<&'a [u8]>, NoMemory>
    ensures ok { IfOk result (λ texts. map (λ text. text.now) texts.items ≡ in_order (name_texts words.now names.now)) }
{
    let mut texts = texts_of(alloc, words, names)?;
    texts.sort()?;
    Ok(texts)
}

/// The texts of the names, in the order of the names.
fn texts_of<'a>(
    alloc: Global,
    words: &'a Words,
    names: &[(NameId, Entry)],
) -> Result<Vec<&'a [u8]>, NoMemory>
    ensures ok { IfOk result (λ texts. map (λ text. text.now) texts.items ≡ name_texts words.now names.now) }
{
    let mut texts = Vec::with_capacity(alloc, names.len())?;
    for (name, _) in names {
        texts.push(word_at(&words.names, name.0))?;
    }
    Ok(texts)
}
