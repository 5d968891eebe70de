//! Changes.
ghost use Rattle.std.specs.Prelude.{◌≡◌, ◌^◌, codes};
ghost use Rattle.std.specs.Option.{option_map};
ghost use Rattle.afr_plan.specs.Reading.{as_a, both, word_then};
ghost use Rattle.afr_trace_read.specs.Forms.{number_below, then_word};
ghost use Rattle.afr_trace_read.specs.Parts.{keyed_at, named_at, object_at, value_at};
ghost use Rattle.afr_trace_read.specs.Reading.{changing_at, cut_change_of, made_at, make_of, numbered_at, remove_of, removed_at, set_of, write_of};

use crate::bytes::{first_of, number};
use crate::kinds::SpelledChange;
use crate::parts::object;
use crate::requests::numbered;
use crate::words::{keyed, named, value};
use afr_base::What;
use afr_plan::Plan;
use afr_plan_line::skip;

fn write<'a>(plan: &Plan, bytes: &'a [u8]) -> Option<(SpelledChange, &'a [u8])>
    ensures { option_map (λ x. (x.0, x.1.now)) result ≡ as_a write_of (both (then_word (numbered_at plan.now (codes "write ") (codes " ")) (codes " ")) (number_below (2 ^ 64))) bytes.now }
{
    let (gfid, at, rest) = numbered(plan, b"write ", b" ", bytes)?;
    let rest = skip(b" ", rest)?;
    let (n, rest) = number(rest, 18_446_744_073_709_551_615)?;
    Some((
        SpelledChange::Write {
            gfid,
            at,
            len: n as u64,
        },
        rest,
    ))
}

fn cut<'a>(plan: &Plan, bytes: &'a [u8]) -> Option<(SpelledChange, &'a [u8])>
    ensures { option_map (λ x. (x.0, x.1.now)) result ≡ as_a cut_change_of (numbered_at plan.now (codes "cut ") (codes " ")) bytes.now }
{
    let (gfid, len, rest) = numbered(plan, b"cut ", b" ", bytes)?;
    Some((SpelledChange::Cut { gfid, len }, rest))
}

fn set_attr<'a>(plan: &Plan, bytes: &'a [u8]) -> Option<(SpelledChange, &'a [u8])>
    ensures { option_map (λ x. (x.0, x.1.now)) result ≡ as_a set_of (both (then_word (word_then (codes "setattr ") (keyed_at plan.now)) (codes " ")) (value_at plan.now)) bytes.now }
{
    let rest = skip(b"setattr ", bytes)?;
    let (gfid, key, rest) = keyed(plan, rest)?;
    let rest = skip(b" ", rest)?;
    let (value, rest) = value(plan, rest)?;
    Some((SpelledChange::SetAttr { gfid, key, value }, rest))
}

#[tactic(auto, unfolding(crate::specs::Reading::made_at))]
fn made(bytes: &[u8]) -> Option<(What, &[u8])>
    ensures { option_map (λ x. (x.0, x.1.now)) result ≡ made_at bytes.now }
{
    first_of(&[(b"create ", What::File), (b"mkdir ", What::Dir)], bytes)
}

#[tactic(auto, unfolding(crate::specs::Reading::removed_at))]
fn removed(bytes: &[u8]) -> Option<(What, &[u8])>
    ensures { option_map (λ x. (x.0, x.1.now)) result ≡ removed_at bytes.now }
{
    first_of(&[(b"unlink ", What::File), (b"rmdir ", What::Dir)], bytes)
}

fn make<'a>(plan: &Plan, bytes: &'a [u8]) -> Option<(SpelledChange, &'a [u8])>
    ensures { option_map (λ x. (x.0, x.1.now)) result ≡ as_a make_of (both (then_word (both made_at (named_at plan.now)) (codes " ")) (object_at plan.now)) bytes.now }
{
    let (what, rest) = made(bytes)?;
    let (dir, name, rest) = named(plan, rest)?;
    let rest = skip(b" ", rest)?;
    let (gfid, rest) = object(plan, rest)?;
    Some((
        SpelledChange::Make {
            what,
            dir,
            name,
            gfid,
        },
        rest,
    ))
}

fn remove<'a>(plan: &Plan, bytes: &'a [u8]) -> Option<(SpelledChange, &'a [u8])>
    ensures { option_map (λ x. (x.0, x.1.now)) result ≡ as_a remove_of (both removed_at (named_at plan.now)) bytes.now }
{
    let (what, rest) = removed(bytes)?;
    let (dir, name, rest) = named(plan, rest)?;
    Some((SpelledChange::Remove { what, dir, name }, rest))
}

/// A change, and what follows it.
#[tactic(auto, unfolding(crate::specs::Reading::changing_at))]
pub(crate) fn changing<'a>(plan: &Plan, bytes: &'a [u8]) -> Option<(SpelledChange, &'a [u8])>
    ensures { option_map (λ x. (x.0, x.1.now)) result ≡ changing_at plan.now bytes.now }
{
    if let Some(x) = write(plan, bytes) {
        return Some(x);
    }
    if let Some(x) = cut(plan, bytes) {
        return Some(x);
    }
    if let Some(x) = set_attr(plan, bytes) {
        return Some(x);
    }
    if let Some(x) = make(plan, bytes) {
        return Some(x);
    }
    remove(plan, bytes)
}
