//! The texts of objects and names, of ranges, and of what a lock covers.
ghost use Rattle.std.specs.Prelude.{◌≡◌, ◌++◌, OnOk, codes, decimal, string_bytes};
ghost use Rattle.afr_report_trace.specs.Objects.{area_text, is_opening, key_text, lock_range_text, name_text, object_text, range_text};

use afr_base::{FIRST_ATTRIBUTE, Gfid, KeyId, NameId, NoMemory, OPENING_GFIDS};
use afr_lines::Area;
use afr_plan::Plan;
use afr_report_words::{push_long_number, push_number, push_word_at};

/// Adds an object: an opening file by its number, any other by its gfid.
pub fn push_object(out: &mut String, plan: &Plan, gfid: Gfid) -> Result<(), NoMemory>
    ensures ok { OnOk result (string_bytes out.new ≡ string_bytes out.old ++ object_text plan.now gfid) }
{
    let number = gfid.0;
    if is_opening(plan, number) {
        out.push('f')?;
        return push_long_number(out, number - OPENING_GFIDS);
    }
    out.push('g')?;
    push_long_number(out, number)
}

fn is_opening(plan: &Plan, number: u128) -> bool
    ensures { result ≡ is_opening plan.now number }
{
    OPENING_GFIDS < number && number <= OPENING_GFIDS + u128::from(plan.files)
}

/// Adds a name in a directory.
pub fn push_name(out: &mut String, plan: &Plan, dir: Gfid, name: NameId) -> Result<(), NoMemory>
    ensures ok { OnOk result (string_bytes out.new ≡ string_bytes out.old ++ name_text plan.now dir name) }
{
    push_object(out, plan, dir)?;
    out.push('/')?;
    push_word_at(out, &plan.words.names, name.0)
}

/// Adds an object and the key of one of its attributes.
pub fn push_key(out: &mut String, plan: &Plan, gfid: Gfid, key: KeyId) -> Result<(), NoMemory>
    ensures ok { OnOk result (string_bytes out.new ≡ string_bytes out.old ++ key_text plan.now gfid key) }
{
    push_object(out, plan, gfid)?;
    out.push(' ')?;
    push_word_at(out, &plan.words.keys, key.0)
}

/// Adds a file with a range of its bytes.
pub fn push_range(
    out: &mut String,
    plan: &Plan,
    gfid: Gfid,
    from: u64,
    to: u64,
) -> Result<(), NoMemory>
    ensures ok { OnOk result (string_bytes out.new ≡ string_bytes out.old ++ range_text plan.now gfid from to) }
{
    push_object(out, plan, gfid)?;
    push_start(out, from)?;
    push_number(out, to)?;
    out.push(')')?;
    Ok(())
}

/// Adds where a range begins: most begin at 0, which is added at once.
fn push_start(out: &mut String, from: u64) -> Result<(), NoMemory>
    ensures ok { OnOk result (string_bytes out.new ≡ string_bytes out.old ++ (codes "[" ++ decimal from ++ codes ",")) }
{
    if from == 0 {
        out.push_str("[0,")?;
        return Ok(());
    }
    out.push('[')?;
    push_number(out, from)?;
    out.push(',')?;
    Ok(())
}

/// Adds what a lock covers.
pub fn push_area(out: &mut String, plan: &Plan, area: Area) -> Result<(), NoMemory>
    ensures ok { OnOk result (string_bytes out.new ≡ string_bytes out.old ++ area_text plan.now area) }
{
    match area {
        Area::Range { gfid, from, to } => push_lock_range(out, plan, gfid, from, to),
        Area::Name { gfid, name: None } => push_all_names(out, plan, gfid),
        Area::Name {
            gfid,
            name: Some(name),
        } => push_name(out, plan, gfid, name),
    }
}

fn push_all_names(out: &mut String, plan: &Plan, dir: Gfid) -> Result<(), NoMemory>
    ensures ok { OnOk result (string_bytes out.new ≡ string_bytes out.old ++ (object_text plan.now dir ++ codes "/*")) }
{
    push_object(out, plan, dir)?;
    out.push_str("/*")?;
    Ok(())
}

fn push_lock_range(
    out: &mut String,
    plan: &Plan,
    gfid: Gfid,
    from: u64,
    to: u64,
) -> Result<(), NoMemory>
    ensures ok { OnOk result (string_bytes out.new ≡ string_bytes out.old ++ lock_range_text plan.now gfid from to) }
{
    if from == FIRST_ATTRIBUTE {
        return push_attributes(out, plan, gfid);
    }
    if to == FIRST_ATTRIBUTE {
        return push_unended(out, plan, gfid, from);
    }
    push_range(out, plan, gfid, from, to)
}

fn push_attributes(out: &mut String, plan: &Plan, gfid: Gfid) -> Result<(), NoMemory>
    ensures ok { OnOk result (string_bytes out.new ≡ string_bytes out.old ++ (object_text plan.now gfid ++ codes "[meta]")) }
{
    push_object(out, plan, gfid)?;
    out.push_str("[meta]")?;
    Ok(())
}

fn push_unended(out: &mut String, plan: &Plan, gfid: Gfid, from: u64) -> Result<(), NoMemory>
    ensures ok { OnOk result (string_bytes out.new ≡ string_bytes out.old ++ (object_text plan.now gfid ++ codes "[" ++ decimal from ++ codes ",end)")) }
{
    push_object(out, plan, gfid)?;
    push_start(out, from)?;
    out.push_str("end)")?;
    Ok(())
}
