//! The report of a plan and a log, over servers whose bricks are as they were at first.
ghost use Rattle.std.specs.Prelude.{◌≡◌, true, reverse};
ghost use Rattle.afr_report.specs.BrickLines.{AreBrickLines, IsBrickEvent, IsBrickLine};

use afr_base::NoMemory;
use afr_brick::Brick;
use afr_faults::FaultPlan;
use afr_lines::{Event, Line};
use afr_log::Log;
use afr_plan::Plan;
use afr_report::{print_report, started};
use afr_server::Server;
use std::alloc::Global;

/// Whether the report has this text.
pub fn reports(alloc: Global, plan: &Plan, lines: Vec<Line>, text: &str) -> Result<bool, NoMemory> {
    if plan.shape.n > 5 || plan.clients.len() > 16 || plan.healers.len() > 3 {
        return Ok(false);
    }
    if !has_brick_lines(&lines) {
        return Ok(false);
    }
    let servers = new_servers(alloc, plan)?;
    let log = Log::of(alloc, lines)?;
    let started = started(plan.shape.n, &log);
    let report = print_report(alloc, plan, &log, started, &servers)?;
    Ok(report.as_str() == text)
}

/// A server for each brick, with the root alone. No log here changes more.
fn new_servers(alloc: Global, plan: &Plan) -> Result<Vec<Server>, NoMemory> {
    let mut servers = Vec::new(alloc);
    for b in 0..plan.shape.n {
        let brick = Brick::empty(alloc, plan.shape.arbiter && b == 2)?;
        servers.push(Server::new(alloc, brick, FaultPlan::new(alloc)))?;
    }
    Ok(servers)
}

fn has_brick_lines(log: &[Line]) -> bool
    ensures { result ≡ true → AreBrickLines (reverse log.now) }
{
    for line in log {
        if !is_brick_line(line) {
            return false;
        }
    }
    true
}

fn is_brick_line(line: &Line) -> bool
    ensures { result ≡ true → IsBrickLine line.now }
{
    match line {
        Line::Event { event } => is_brick_event(*event),
        Line::Ask { .. } => true,
        Line::Begin { .. } => true,
        Line::HealBegin { .. } => true,
        Line::End { .. } => true,
        Line::HealEnd { .. } => true,
    }
}

fn is_brick_event(event: Event) -> bool
    ensures { result ≡ true → IsBrickEvent event }
{
    match event {
        Event::Stop(brick) => brick.0 < 5,
        Event::Start(brick) => brick.0 < 5,
        Event::Cut(_, _) => true,
        Event::Join(_, _) => true,
        Event::Kill(_) => true,
    }
}
