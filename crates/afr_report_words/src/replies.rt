//! The texts of replies, with what was given.
ghost use Rattle.std.specs.Prelude.{◌≡◌, ◌++◌, OnOk, string_bytes};
ghost use Rattle.afr_model.specs.ReportReplies.{bytes_text, good_text, len_text, reply_text, stat_text, value_text, what_text};

use crate::names::push_names;
use crate::numbers::{push_hex, push_number};
use crate::text::{push_gfid, push_word};
use crate::words::push_word_at;
use afr_base::{NoMemory, ValueId, What};
use afr_lines::{Good, Reply};
use afr_object::Entry;
use afr_plan::Words;

/// Adds a reply, with what it gave.
pub fn push_reply(out: &mut String, words: &Words, reply: &Reply) -> Result<(), NoMemory>
    ensures ok { OnOk result (string_bytes out.new ≡ string_bytes out.old ++ reply_text words.now reply.now) }
{
    match reply {
        Reply::Ok(good) => push_good(out, words, good),
        Reply::NoEntry => push_word(out, "no-entry"),
        Reply::Exists => push_word(out, "exists"),
        Reply::NotDir => push_word(out, "not-dir"),
        Reply::IsDir => push_word(out, "is-dir"),
        Reply::NotEmpty => push_word(out, "not-empty"),
        Reply::NoQuorum => push_word(out, "no-quorum"),
        Reply::FewCopies => push_word(out, "few-copies"),
        Reply::SplitBrain(_) => push_word(out, "split-brain"),
        Reply::Failed => push_word(out, "failed"),
        Reply::TooLarge => push_word(out, "too-large"),
        Reply::Half => push_word(out, "half"),
    }
}

fn push_good(out: &mut String, words: &Words, good: &Good) -> Result<(), NoMemory>
    ensures ok { OnOk result (string_bytes out.new ≡ string_bytes out.old ++ good_text words.now good.now) }
{
    match good {
        Good::Done => push_word(out, "ok"),
        Good::Bytes(bytes) => push_bytes(out, bytes.as_slice()),
        Good::Names(names) => push_names(out, words, names),
        Good::Value(value) => push_value(out, words, *value),
        Good::Stat { entry, len } => push_stat(out, *entry, *len),
    }
}

fn push_bytes(out: &mut String, bytes: &[u8]) -> Result<(), NoMemory>
    ensures ok { OnOk result (string_bytes out.new ≡ string_bytes out.old ++ bytes_text bytes.now) }
{
    if bytes.is_empty() {
        return push_word(out, "ok -");
    }
    out.push_str("ok ")?;
    push_hex(out, bytes)
}

fn push_value(out: &mut String, words: &Words, value: Option<ValueId>) -> Result<(), NoMemory>
    ensures ok { OnOk result (string_bytes out.new ≡ string_bytes out.old ++ value_text words.now value) }
{
    let Some(value) = value else {
        return push_word(out, "ok -");
    };
    out.push_str("ok ")?;
    push_word_at(out, &words.values, value.0)
}

fn push_stat(out: &mut String, entry: Entry, len: u32) -> Result<(), NoMemory>
    ensures ok { OnOk result (string_bytes out.new ≡ string_bytes out.old ++ stat_text entry len) }
{
    out.push_str(what_word(entry.what))?;
    push_gfid(out, entry.gfid)?;
    push_len(out, entry.what, len)
}

fn what_word(what: What) -> &'static str
    ensures { result.now ≡ what_text what }
{
    match what {
        What::File => "ok file ",
        What::Dir => "ok dir ",
    }
}

/// Adds the length of a file; a directory has none.
fn push_len(out: &mut String, what: What, len: u32) -> Result<(), NoMemory>
    ensures ok { OnOk result (string_bytes out.new ≡ string_bytes out.old ++ len_text what len) }
{
    match what {
        What::File => push_spaced_number(out, len),
        What::Dir => Ok(()),
    }
}

fn push_spaced_number(out: &mut String, number: u32) -> Result<(), NoMemory>
    ensures ok { OnOk result (string_bytes out.new ≡ string_bytes out.old ++ len_text What.File number) }
{
    out.push(' ')?;
    push_number(out, u64::from(number))
}
