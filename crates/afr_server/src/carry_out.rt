//! What a brick makes of a request that reaches it: each kind of request goes to the locks or to the copies.
ghost use Rattle.std.specs.Prelude.{◌≡◌, None, OnOk, OnErr};
ghost use Rattle.afr_model.specs.Honest.{lock_answer};
ghost use Rattle.afr_server.specs.Carried.{CanCarryOut, CanLock, CarriesOut, names_after, ranges_after};
ghost use Rattle.afr_server.specs.Serving.{way_in};

use crate::changes::{apply, mend, post, pre, settle};
use crate::locks::{lock_name, lock_range};
use crate::reads::{index, list, look, read_attr, read_attrs, read_bytes, read_name};
use crate::said::say_done;
use afr_base::{ActorId, NoMemory};
use afr_brick::Brick;
use afr_lines::{Answer, Area, Domain, Request};
use afr_name_locks::NameLocks;
use afr_object::Load;
use afr_range_locks::RangeLocks;

/// A brick carries a request out, and its answer is written in its place. It takes the parts of a server
/// and not the server: a lock that a first line takes stands there before the session that it goes with.
/// Nearly all requests come this way, so it stands in its callers.
#[inline(always)]
pub(crate) fn carry_out(
    brick: &mut Brick,
    ranges: &mut RangeLocks,
    names: &mut NameLocks,
    actor: ActorId,
    request: &Request,
    load: Load<'_>,
    answer: &mut Answer,
) -> Result<(), NoMemory>
    requires lock { CanLock request.now }
    requires can { CanCarryOut request.now load brick.old.objects }
    ensures ok { OnOk result (CarriesOut actor request.now load.entry (way_in actor request.now ranges.old names.old) brick.old brick.new ranges.old ranges.new names.old names.new answer.new) }
    ensures err { OnErr result ((brick.new ≡ brick.old) × (ranges.new ≡ ranges.old) × (names.new ≡ names.old)) }
{
    match request {
        Request::Lock { domain, area } => lock(ranges, names, actor, *domain, area, answer),
        Request::Unlock { domain, area } => {
            unlock(ranges, names, actor, *domain, area, answer);
            Ok(())
        }
        Request::Look { gfid } => {
            look(brick, *gfid, answer);
            Ok(())
        }
        Request::ReadBytes { gfid, at, len } => read_bytes(brick, *gfid, *at, *len, answer),
        Request::ReadName { gfid, name } => {
            read_name(brick, *gfid, *name, answer);
            Ok(())
        }
        Request::List { gfid } => list(brick, *gfid, answer),
        Request::ReadAttr { gfid, key } => {
            read_attr(brick, *gfid, *key, answer);
            Ok(())
        }
        Request::ReadAttrs { gfid } => read_attrs(brick, *gfid, answer),
        Request::Index => index(brick, answer),
        Request::Pre { gfid, kind } => {
            pre(brick, *gfid, *kind, answer);
            Ok(())
        }
        Request::Apply { attempt } => apply(brick, *attempt, load, answer),
        Request::Post {
            attempt,
            gfid,
            kind,
            missed,
        } => {
            post(brick, *attempt, *gfid, *kind, *missed, answer);
            Ok(())
        }
        Request::Mend { repair } => mend(brick, repair, load, answer),
        Request::Settle { gfid, kind, less } => {
            settle(brick, *gfid, *kind, less, answer);
            Ok(())
        }
    }
}

fn lock(
    ranges: &mut RangeLocks,
    names: &mut NameLocks,
    actor: ActorId,
    domain: Domain,
    area: &Area,
    answer: &mut Answer,
) -> Result<(), NoMemory>
    requires lock { CanLock (Request.Lock domain area.now) }
    ensures answer { OnOk result (answer.new ≡ lock_answer (way_in actor (Request.Lock domain area.now) ranges.old names.old)) }
    ensures ranges { OnOk result (ranges.new ≡ ranges_after actor (Request.Lock domain area.now) (way_in actor (Request.Lock domain area.now) ranges.old names.old) ranges.old) }
    ensures names { OnOk result (names.new ≡ names_after actor (Request.Lock domain area.now) (way_in actor (Request.Lock domain area.now) ranges.old names.old) names.old) }
    ensures err { OnErr result ((ranges.new ≡ ranges.old) × (names.new ≡ names.old)) }
{
    match area {
        Area::Range { gfid, from, to } => lock_range(
            ranges, actor, domain, *gfid, *from, *to, answer,
        ),
        Area::Name { gfid, name } => lock_name(names, actor, domain, *gfid, *name, answer),
    }
}

fn unlock(
    ranges: &mut RangeLocks,
    names: &mut NameLocks,
    actor: ActorId,
    domain: Domain,
    area: &Area,
    answer: &mut Answer,
)
    ensures answer { answer.new ≡ Answer.Done }
    ensures ranges { ranges.new ≡ ranges_after actor (Request.Unlock domain area.now) None ranges.old }
    ensures names { names.new ≡ names_after actor (Request.Unlock domain area.now) None names.old }
{
    match area {
        Area::Range { gfid, from, to } => ranges.unlock(actor, domain, *gfid, *from, *to),
        Area::Name { gfid, name } => names.unlock(actor, domain, *gfid, *name),
    }
    say_done(answer);
}
