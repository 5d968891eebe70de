//! The lists that the crawler was given, beside the log.
ghost use Rattle.std.specs.Prelude.{◌≡◌, ◌-◌, ◌<◌, ◌≤◌, ◌^◌, ◌&&◌, ◌==◌, ℕ, IfOk, None, OnErr, OnOk, Some, false, is_some, length, slice_get, true, if◌then◌else◌, vec_capacity, vec_len};
ghost use Rattle.afr_heal_round.specs.Rounding.{IsFed, Rounding, next_of};
ghost use Rattle.afr_healer.specs.Acting.{Adds, CanStep};
ghost use Rattle.afr_healer.specs.declared.healer.Healer.{Healer};
ghost use Rattle.afr_lines.specs.declared.line.Line.{Line};
ghost use Rattle.afr_lines.specs.declared.line.Next.{Next};
ghost use Rattle.afr_rule.specs.Choosing.{IsRule};
ghost use Rattle.afr_volume.specs.Lists.{ListsLine, ShowsNext, gives_index, noted};
ghost use Rattle.afr_volume.specs.Turning.{StepsHealerAt};

use crate::healers::step_healer;
use afr_base::{ActorId, BrickId, FIRST_HEALER, NoMemory};
use afr_heal_round::RoundComing;
use afr_healer::Healer;
use afr_lines::{Line, Request, Told};
use afr_log::Log;
use afr_object::IndexList;
use afr_rule::{Candidate, SourceRule};
use afr_servers::{Exchange, Servers};

/// One line of a healer whose round has begun. Where it gave the crawler a list, that is kept.
pub(crate) fn step_listed<F: Fn(&[Candidate]) -> usize>(
    crawl: bool,
    a: ActorId,
    healers: &mut Vec<Healer>,
    servers: &mut Servers,
    position: u32,
    log: &mut Log,
    lists: &mut Vec<Option<IndexList>>,
    exchange: &mut Exchange,
    rule: &SourceRule<F>,
) -> Result<(), NoMemory>
    requires rule { IsRule F.Fn rule.now }
    requires low { 17 ≤ a.0 }
    requires within { a.0 - 17 < length healers.old.items }
    requires busy { (x : Healer) → slice_get healers.old.items (a.0 - 17) ≡ Some x → (is_some x.round ≡ true) × (x.ended < 2 ^ 32 - 1) }
    requires can { (x : Healer) → slice_get healers.old.items (a.0 - 17) ≡ Some x → CanStep a position x servers.old }
    requires position { position ≡ length log.old.items }
    requires space { log.old.room ≡ true }
    ensures ok { OnOk result (Adds (λ line. StepsHealerAt (IsFed F.Fn rule.now) a position healers.old.items healers.new.items servers.old servers.new line × ListsLine crawl a.0 healers.old.items servers.old line lists.old.items lists.new.items) log.old.items log.new.items) }
    ensures err { OnErr result ((healers.new.items ≡ healers.old.items) × (servers.new ≡ servers.old) × (log.new.items ≡ log.old.items) × (lists.new.items ≡ lists.old.items)) }
{
    let shown = coming_list(crawl, a, healers, servers, lists)?;
    step_healer(a, healers, servers, position, log, exchange, rule)?;
    note_list(shown, log, position as usize, lists);
    Ok(())
}

/// What the brick's index has now, where the crawler's next line asks for it, and room to keep it. A brick that is asked gives
/// just this, if it answers at all.
fn coming_list(
    crawl: bool,
    a: ActorId,
    healers: &Vec<Healer>,
    servers: &Servers,
    lists: &mut Vec<Option<IndexList>>,
) -> Result<Option<IndexList>, NoMemory>
    ensures items { lists.new.items ≡ lists.old.items }
    ensures room { IfOk result (λ shown. is_some shown ≡ true → vec_len lists.new < vec_capacity lists.new) }
    ensures none { IfOk result (λ shown. (crawl && (a.0 == 17)) ≡ false → shown ≡ None) }
    ensures shows { IfOk result (λ shown. (x : Healer) (m : Rounding) → (crawl && (a.0 == 17)) ≡ true → slice_get healers.now.items 0 ≡ Some x → x.round ≡ Some m → ShowsNext servers.now shown (next_of m)) }
{
    if !is_crawler(crawl, a) {
        return Ok(None);
    }
    match first_asks(healers) {
        Some(brick) => list_of(brick, servers, lists),
        None => Ok(None),
    }
}

/// What this brick's index has now, if there is such a brick, and room to keep it.
fn list_of(
    brick: BrickId,
    servers: &Servers,
    lists: &mut Vec<Option<IndexList>>,
) -> Result<Option<IndexList>, NoMemory>
    ensures items { lists.new.items ≡ lists.old.items }
    ensures room { IfOk result (λ shown. is_some shown ≡ true → vec_len lists.new < vec_capacity lists.new) }
    ensures shows { IfOk result (λ shown. (n : Next) (asked : Request) → n ≡ Next.Ask brick asked → ShowsNext servers.now shown n) }
{
    let servers = servers.servers();
    if brick.0 as usize >= servers.len() {
        return Ok(None);
    }
    lists.try_reserve(1)?;
    let shown = servers[brick.0 as usize].brick().index()?;
    Ok(Some(shown))
}

/// Whether the healer goes the rounds of a crawl.
fn is_crawler(crawl: bool, a: ActorId) -> bool
    ensures { result ≡ (crawl && (a.0 == 17)) }
{
    crawl && a.0 == FIRST_HEALER
}

/// Whom the next line of the first healer asks, where it is a request.
fn first_asks(healers: &Vec<Healer>) -> Option<BrickId>
    ensures some { (b : BrickId) (x : Healer) (m : Rounding) → result ≡ Some b → slice_get healers.now.items 0 ≡ Some x → x.round ≡ Some m → (asked : Request) × (next_of m ≡ Next.Ask b asked) }
    ensures none { (x : Healer) (m : Rounding) (b : BrickId) (asked : Request) → result ≡ None → slice_get healers.now.items 0 ≡ Some x → x.round ≡ Some m → next_of m ≡ Next.Ask b asked → ⊥ }
{
    let first = healers.first()?;
    asks_whom(first)
}

/// Whom the next line of a healer asks, where it is a request.
fn asks_whom(healer: &Healer) -> Option<BrickId>
    ensures some { (b : BrickId) (m : Rounding) → result ≡ Some b → healer.now.round ≡ Some m → (asked : Request) × (next_of m ≡ Next.Ask b asked) }
    ensures none { (m : Rounding) (b : BrickId) (asked : Request) → result ≡ None → healer.now.round ≡ Some m → next_of m ≡ Next.Ask b asked → ⊥ }
{
    let mut request = Request::Index;
    let round = healer.round.as_ref()?;
    match round.asks(&mut request) {
        RoundComing::Ask(brick) => Some(brick),
        _ => None,
    }
}

/// Keeps what was shown for the line at this place, if that was given it.
fn note_list(shown: Option<IndexList>, log: &Log, at: usize, lists: &mut Vec<Option<IndexList>>)
    requires room { is_some shown ≡ true → vec_len lists.old < vec_capacity lists.old }
    ensures { (line : Line) → slice_get log.now.items at ≡ Some line → lists.new.items ≡ noted shown line lists.old.items }
{
    let Some(list) = shown else {
        return;
    };
    let kept = kept_list(list, gave_index(log, at));
    let Ok(()) = lists.push(kept) else {
        unreachable!()
    };
}

/// The list, if it was given.
fn kept_list(list: IndexList, given: bool) -> Option<IndexList>
    ensures { result ≡ (if given then Some list else None) }
{
    if given { Some(list) } else { None }
}

/// Whether the line at this place was given an index.
fn gave_index(log: &Log, at: usize) -> bool
    ensures { (line : Line) → slice_get log.now.items at ≡ Some line → result ≡ gives_index line }
{
    match log.line(at) {
        Some(shown) => is_index_given(shown.as_line()),
        None => false,
    }
}

/// Whether the line was given an index.
fn is_index_given(line: &Line) -> bool
    ensures { result ≡ gives_index line.now }
{
    match line {
        Line::Ask {
            request: Request::Index,
            told: Told::Given,
            ..
        } => true,
        _ => false,
    }
}
