//! What is counted over the lines, and the totals that may not be passed.
ghost use Rattle.std.specs.Prelude.{◌≡◌, ◌+◌, ◌<◌, ◌^◌, [], false, reverse, map};
ghost use Rattle.afr_plan_read.specs.Counts.{IsCounted};
ghost use Rattle.afr_plan_read.specs.Counts as count;
ghost use Rattle.afr_plan.specs.Rules as rule;
ghost use Rattle.afr_plan_line.specs.Seen.{seen, seen_action};

use afr_plan::limits;
use afr_plan_line::{Spoken, SpokenAction, data_len};

/// What is counted over the lines.
#[derive(Clone, Copy, Drop)]
pub(crate) struct LineCounts {
    /// The bricks of the volume.
    pub(crate) bricks: u8,
    pub(crate) clients: u32,
    pub(crate) commands: u32,
    /// The commands `ls`.
    pub(crate) listings: u32,
    pub(crate) healers: u32,
    pub(crate) rounds: u32,
    pub(crate) faults: u32,
    pub(crate) events: u32,
    pub(crate) orders: u32,
    /// The position of the newest event.
    pub(crate) last_at: u32,
    /// The ends of all writes together.
    pub(crate) ends: u32,
    /// The lengths of all reads together.
    pub(crate) lengths: u32,
}

pub(crate) fn no_counts() -> LineCounts
    ensures { IsCounted [] result }
{
    LineCounts {
        bricks: 0,
        clients: 0,
        commands: 0,
        listings: 0,
        healers: 0,
        rounds: 0,
        faults: 0,
        events: 0,
        orders: 0,
        last_at: 0,
        ends: 0,
        lengths: 0,
    }
}

fn passes_work(before: &[Spoken], counts: &LineCounts, action: &SpokenAction) -> bool
    requires counts { IsCounted (reverse (map seen before.now)) counts.now }
    requires limits { rule.is_work_beyond (seen_action action.now) ≡ false }
    ensures { result ≡ rule.passes_work (reverse (map seen before.now)) (seen_action action.now) }
{
    match action {
        SpokenAction::Write { at, data } => {
            counts.ends as usize + (*at as usize + data_len(data)) > limits::WRITTEN
        }
        SpokenAction::Read { at: _, len } => counts.lengths + *len > limits::READ,
        SpokenAction::Ls => counts.listings >= limits::LISTINGS,
        SpokenAction::Cut { len: _ } => false,
        SpokenAction::Create => false,
        SpokenAction::Mkdir => false,
        SpokenAction::Unlink => false,
        SpokenAction::Rmdir => false,
        SpokenAction::Stat => false,
        SpokenAction::SetAttr { key: _, value: _ } => false,
        SpokenAction::GetAttr { key: _ } => false,
        SpokenAction::Rename { to: _ } => false,
    }
}

/// Whether a total is passed.
pub(crate) fn passes_total(before: &[Spoken], counts: &LineCounts, spoken: &Spoken) -> bool
    requires counts { IsCounted (reverse (map seen before.now)) counts.now }
    requires limits { rule.is_beyond (seen spoken.now) ≡ false }
    ensures { result ≡ rule.passes_total (reverse (map seen before.now)) (seen spoken.now) }
{
    match spoken {
        Spoken::Command { path: _, action } => {
            counts.commands >= limits::COMMANDS || passes_work(before, counts, action)
        }
        Spoken::Round(_) => counts.rounds >= limits::SCHEDULE,
        Spoken::Faulty {
            brick: _,
            at: _,
            fault: _,
        } => counts.faults >= limits::SCHEDULE,
        Spoken::At { at: _, event: _ } => counts.events >= limits::SCHEDULE,
        Spoken::Go { who: _, count: _ } => counts.orders >= limits::SCHEDULE,
        Spoken::Afr(_) => false,
        Spoken::Volume(_, _) => false,
        Spoken::Files(_) => false,
        Spoken::Turns(_) => false,
        Spoken::Client(_) => false,
        Spoken::Healer(_) => false,
        Spoken::End => false,
    }
}

/// The counts of a command's kind with one more.
fn worked(counts: LineCounts, action: &SpokenAction) -> LineCounts
    requires listings { counts.listings < 2 ^ 31 }
    requires ends { counts.ends + rule.work_end (seen_action action.now) < 2 ^ 32 }
    requires lengths { counts.lengths + rule.work_len (seen_action action.now) < 2 ^ 32 }
    ensures { result ≡ count.worked (seen_action action.now) counts }
{
    match action {
        SpokenAction::Write { at, data } => LineCounts {
            ends: counts.ends + (*at + data_len(data) as u32),
            ..counts
        },
        SpokenAction::Read { at: _, len } => LineCounts {
            lengths: counts.lengths + *len,
            ..counts
        },
        SpokenAction::Ls => LineCounts {
            listings: counts.listings + 1,
            ..counts
        },
        SpokenAction::Cut { len: _ } => counts,
        SpokenAction::Create => counts,
        SpokenAction::Mkdir => counts,
        SpokenAction::Unlink => counts,
        SpokenAction::Rmdir => counts,
        SpokenAction::Stat => counts,
        SpokenAction::SetAttr { key: _, value: _ } => counts,
        SpokenAction::GetAttr { key: _ } => counts,
        SpokenAction::Rename { to: _ } => counts,
    }
}

/// The counts with one line more.
pub(crate) fn counted(counts: LineCounts, spoken: &Spoken) -> LineCounts
    requires clients { counts.clients < 2 ^ 31 }
    requires commands { counts.commands < 2 ^ 31 }
    requires listings { counts.listings < 2 ^ 31 }
    requires healers { counts.healers < 2 ^ 31 }
    requires rounds { counts.rounds < 2 ^ 31 }
    requires faults { counts.faults < 2 ^ 31 }
    requires events { counts.events < 2 ^ 31 }
    requires orders { counts.orders < 2 ^ 31 }
    requires ends { counts.ends + rule.write_end (seen spoken.now) < 2 ^ 32 }
    requires lengths { counts.lengths + rule.read_len (seen spoken.now) < 2 ^ 32 }
    ensures { result ≡ count.counted (seen spoken.now) counts }
{
    match spoken {
        Spoken::Volume(_, shape) => LineCounts {
            bricks: shape.n,
            ..counts
        },
        Spoken::Client(_) => LineCounts {
            clients: counts.clients + 1,
            ..counts
        },
        Spoken::Command { path: _, action } => worked(
            LineCounts {
                commands: counts.commands + 1,
                ..counts
            },
            action,
        ),
        Spoken::Healer(_) => LineCounts {
            healers: counts.healers + 1,
            ..counts
        },
        Spoken::Round(_) => LineCounts {
            rounds: counts.rounds + 1,
            ..counts
        },
        Spoken::Faulty { .. } => LineCounts {
            faults: counts.faults + 1,
            ..counts
        },
        Spoken::At { at, event: _ } => LineCounts {
            events: counts.events + 1,
            last_at: *at,
            ..counts
        },
        Spoken::Go { who: _, count: _ } => LineCounts {
            orders: counts.orders + 1,
            ..counts
        },
        Spoken::Afr(_) | Spoken::Files(_) | Spoken::Turns(_) | Spoken::End => counts,
    }
}
