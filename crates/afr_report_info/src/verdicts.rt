//! The verdict over each kind of an object that has a number above 0.
ghost use Rattle.std.specs.Prelude.{◌≡◌, ◌++◌, ◌≤◌, IfOk, OnOk, codes, decimal, flat_map, if◌then◌else◌, string_bytes};
ghost use Rattle.afr_model.specs.ReportObjects.{is_split_verdict, one_if_split, verdict_line, verdict_text};
ghost use Rattle.afr_base.specs.Rising.{IsRising};
ghost use Rattle.afr_report_info.specs.Shown.{HasRising};

use crate::looking::is_clean;
use crate::reach::push_bricks;
use afr_base::{BrickSet, Kind, NoMemory};
use afr_choice::{Looked, Verdict, judge};
use afr_plan::Plan;
use afr_report_words::{kind_word, push_word};

/// Adds the line of a kind, where it has a number above 0, and gives how many of them are split.
pub fn push_verdict(
    out: &mut String,
    plan: &Plan,
    looked: &Looked,
    kind: Kind,
) -> Result<usize, NoMemory>
    requires few { plan.now.shape.n ≤ 5 }
    ensures ok { OnOk result (string_bytes out.new ≡ string_bytes out.old ++ verdict_line plan.now looked.now kind) }
    ensures split { IfOk result (λ count. count ≡ one_if_split plan.now looked.now kind) }
    ensures one { IfOk result (λ count. count ≤ 1) }
{
    if is_clean(kind, looked) {
        return Ok(0);
    }
    let verdict = judge(&plan.shape, looked, kind);
    let word = kind_word(kind);
    write!(out, "{word} ")?;
    push_verdict_word(out, &verdict)?;
    out.push_str("\n")?;
    Ok(count_split(&verdict))
}

/// 1 where the kind has a number above 0 and is split, else 0.
pub fn split_of(plan: &Plan, looked: &Looked, kind: Kind) -> usize
    requires few { plan.now.shape.n ≤ 5 }
    ensures split { result ≡ one_if_split plan.now looked.now kind }
    ensures one { result ≤ 1 }
{
    if is_clean(kind, looked) {
        return 0;
    }
    count_split(&judge(&plan.shape, looked, kind))
}

fn count_split(verdict: &Verdict) -> usize
    ensures { result ≡ (if is_split_verdict verdict.now then 1 else 0) }
{
    match verdict {
        Verdict::Split => 1,
        Verdict::Short | Verdict::Bare | Verdict::Sources(_) => 0,
    }
}

fn push_verdict_word(out: &mut String, verdict: &Verdict) -> Result<(), NoMemory>
    requires rising { HasRising verdict.now }
    ensures ok { OnOk result (string_bytes out.new ≡ string_bytes out.old ++ verdict_text verdict.now) }
{
    match verdict {
        Verdict::Short => push_word(out, "short"),
        Verdict::Bare => push_word(out, "bare"),
        Verdict::Split => push_word(out, "split"),
        Verdict::Sources(sources) => push_sources(out, *sources),
    }
}

fn push_sources(out: &mut String, sources: BrickSet) -> Result<(), NoMemory>
    requires rising { IsRising 0 sources }
    ensures ok { OnOk result (string_bytes out.new ≡ string_bytes out.old ++ (codes "good" ++ flat_map (λ b. codes " " ++ decimal b) sources)) }
{
    out.push_str("good")?;
    push_bricks(out, sources)
}
