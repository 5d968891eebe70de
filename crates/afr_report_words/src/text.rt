//! Words, kinds and gfids as text.
ghost use Rattle.std.specs.Prelude.{◌≡◌, ◌++◌, OnOk, string_bytes};
ghost use Rattle.afr_base.specs.Text.{gfid_spelling};
ghost use Rattle.afr_model.specs.ReportReplies.{kind_text};

use afr_base::{Gfid, Kind, NoMemory, gfid_text};

/// Adds a word as it stands.
pub fn push_word(out: &mut String, word: &str) -> Result<(), NoMemory>
    ensures ok { OnOk result (string_bytes out.new ≡ string_bytes out.old ++ word.now) }
{
    out.push_str(word)?;
    Ok(())
}

/// Adds the 36 characters of a gfid.
pub fn push_gfid(out: &mut String, gfid: Gfid) -> Result<(), NoMemory>
    ensures ok { OnOk result (string_bytes out.new ≡ string_bytes out.old ++ gfid_spelling gfid.0) }
{
    let text = gfid_text(*out.allocator(), gfid)?;
    push_word(out, text.as_str())
}

/// The word of a kind.
pub fn kind_word(kind: Kind) -> &'static str
    ensures { result.now ≡ kind_text kind }
{
    match kind {
        Kind::Bytes => "data",
        Kind::Attrs => "metadata",
        Kind::Names => "entry",
    }
}
