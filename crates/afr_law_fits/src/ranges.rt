//! Each number of a line lies in the range of its type: functions that do nothing but walk over a list, and whose contracts say so of each part of a line.
ghost use Rattle.std.specs.Prelude.{◌<◌, ◌^◌};
ghost use Rattle.afr_model_moves.specs.Ranges.{AreaInRange, ChangeInRange, Each, EventInRange, GoodInRange, HealReplyInRange, IfSome, InRange, IsByte, IsGfid, IsTwoBytes, IsWord, MarksInRange, RepairInRange, ReplyInRange, RequestInRange, ToldInRange, ViewInRange, ViewsInRange};
ghost use Rattle.afr_law_fits.specs.Named.{IsNamed};

use afr_base::{ActorId, BrickId, BrickSet, Gfid, Marks, NameId};
use afr_lines::{Area, Event, Good, HealReply, Line, Reply, Request, Told};
use afr_object::{Change, Entry, Repair, View};

fn byte_fits(n: u8)
    ensures { IsByte n }
{
    let _n = n;
}

fn short_fits(n: u16)
    ensures { IsTwoBytes n }
{
    let _n = n;
}

fn word_fits(n: u32)
    ensures { IsWord n }
{
    let _n = n;
}

fn gfid_fits(gfid: Gfid)
    ensures { IsGfid gfid.0 }
{
    let _n = gfid.0;
}

/// The number of an actor is in its range.
pub fn actor_fits_its_type(actor: ActorId)
    ensures { IsTwoBytes actor.0 }
{
    short_fits(actor.0);
}

/// The number of a brick is in its range.
pub fn brick_fits_its_type(brick: BrickId)
    ensures { IsByte brick.0 }
{
    byte_fits(brick.0);
}

fn place_fits(n: u64)
    ensures { n < 2 ^ 64 }
{
    let _n = n;
}

fn name_fits(name: Option<NameId>)
    ensures { IfSome (λ (m : NameId). IsWord m.0) name }
{
    match name {
        Some(name) => word_fits(name.0),
        None => {}
    }
}

fn area_fits(area: Area)
    ensures { AreaInRange area }
{
    match area {
        Area::Range { gfid, from, to } => {
            gfid_fits(gfid);
            place_fits(from);
            place_fits(to);
        }
        Area::Name { gfid, name } => {
            gfid_fits(gfid);
            name_fits(name);
        }
    }
}

fn words_fit(words: &[u32])
    ensures { Each IsWord words.now }
{
    let _words = words;
}

fn marks_fit(marks: &Marks)
    ensures { MarksInRange marks.now }
{
    word_fits(marks.dirty);
    words_fit(&marks.pending);
}

fn view_fits(view: &View)
    ensures { ViewInRange view.now }
{
    word_fits(view.len);
    marks_fit(&view.marks.bytes);
    marks_fit(&view.marks.attrs);
    marks_fit(&view.marks.names);
}

fn told_fits(told: &Told)
    ensures { ToldInRange told.now }
{
    match told {
        Told::Seen(view) => view_fits(view),
        Told::Held(owner) => short_fits(owner.0),
        _ => {}
    }
}

fn event_fits(event: Event)
    ensures { EventInRange event }
{
    match event {
        Event::Stop(b) => byte_fits(b.0),
        Event::Start(b) => byte_fits(b.0),
        Event::Cut(a, b) => {
            short_fits(a.0);
            byte_fits(b.0);
        }
        Event::Join(a, b) => {
            short_fits(a.0);
            byte_fits(b.0);
        }
        Event::Kill(a) => short_fits(a.0),
    }
}

fn read_fits(read: Option<u32>)
    ensures { IfSome IsWord read }
{
    match read {
        Some(read) => word_fits(read),
        None => {}
    }
}

fn reads_fit(reads: &[Option<u32>])
    ensures { Each (IfSome IsWord) reads.now }
{
    for read in reads {
        read_fits(*read);
    }
}

fn repair_fits(repair: &Repair)
    ensures { RepairInRange repair.now }
{
    match repair {
        Repair::CutTo { gfid, len } => {
            gfid_fits(*gfid);
            word_fits(*len);
        }
        Repair::Copy {
            gfid,
            at,
            span,
            read,
        } => {
            gfid_fits(*gfid);
            word_fits(*at);
            word_fits(*span);
            word_fits(*read);
        }
        Repair::PutAttrs { gfid, read } => {
            gfid_fits(*gfid);
            word_fits(*read);
        }
        Repair::PutNames { gfid, reads } => {
            gfid_fits(*gfid);
            reads_fit(reads);
        }
    }
}

fn bytes_fit(bytes: &[u8])
    ensures { Each IsByte bytes.now }
{
    let _bytes = bytes;
}

/// The bricks of a set are numbered below five.
fn set_fits(set: BrickSet)
    ensures { Each IsByte set }
{
    let _count = set.count();
}

fn change_fits(change: &Change)
    ensures { ChangeInRange change.now }
{
    match change {
        Change::Write { gfid, at, bytes } => {
            gfid_fits(*gfid);
            word_fits(*at);
            bytes_fit(bytes.as_slice());
        }
        Change::Cut { gfid, len } => {
            gfid_fits(*gfid);
            word_fits(*len);
        }
        Change::SetAttr { gfid, key, value } => {
            gfid_fits(*gfid);
            word_fits(key.0);
            word_fits(value.0);
        }
        Change::Make {
            dir,
            name,
            gfid,
            ..
        } => {
            gfid_fits(*dir);
            word_fits(name.0);
            gfid_fits(*gfid);
        }
        Change::Remove { dir, name, .. } => {
            gfid_fits(*dir);
            word_fits(name.0);
        }
    }
}

/// Each number of a request is in its range, before the line that asks for it is there.
pub fn request_fits_its_types(request: &Request)
    ensures { RequestInRange request.now }
{
    match request {
        Request::Lock { area, .. } => area_fits(*area),
        Request::Unlock { area, .. } => area_fits(*area),
        Request::Look { gfid } => gfid_fits(*gfid),
        Request::ReadBytes { gfid, at, len } => {
            gfid_fits(*gfid);
            word_fits(*at);
            word_fits(*len);
        }
        Request::ReadName { gfid, name } => {
            gfid_fits(*gfid);
            word_fits(name.0);
        }
        Request::List { gfid } => gfid_fits(*gfid),
        Request::ReadAttr { gfid, key } => {
            gfid_fits(*gfid);
            word_fits(key.0);
        }
        Request::ReadAttrs { gfid } => gfid_fits(*gfid),
        Request::Index => {}
        Request::Pre { gfid, .. } => gfid_fits(*gfid),
        Request::Apply { attempt } => word_fits(*attempt),
        Request::Post {
            attempt,
            gfid,
            missed,
            ..
        } => {
            word_fits(*attempt);
            gfid_fits(*gfid);
            set_fits(*missed);
        }
        Request::Mend { repair } => repair_fits(repair),
        Request::Settle { gfid, less, .. } => {
            gfid_fits(*gfid);
            marks_fit(less);
        }
    }
}

fn seen_fits(view: &Option<View>)
    ensures { IfSome ViewInRange view.now }
{
    match view {
        Some(view) => view_fits(view),
        None => {}
    }
}

fn each_seen_fits(views: &[Option<View>])
    ensures { Each (IfSome ViewInRange) views.now }
{
    for view in views {
        seen_fits(view);
    }
}

fn views_fit(views: &[Option<View>; 5])
    ensures { ViewsInRange views.now }
{
    each_seen_fits(views);
}

fn names_fit(names: &[(NameId, Entry)])
    ensures { Each IsNamed names.now }
{
    for pair in names {
        word_fits(pair.0.0);
        gfid_fits(pair.1.gfid);
    }
}

fn good_fits(good: &Good)
    ensures { GoodInRange good.now }
{
    match good {
        Good::Done => {}
        Good::Bytes(bytes) => bytes_fit(bytes.as_slice()),
        Good::Names(names) => names_fit(names.as_slice()),
        Good::Value(value) => {
            if let Some(value) = value {
                word_fits(value.0);
            }
        }
        Good::Stat { entry, len } => {
            gfid_fits(entry.gfid);
            word_fits(*len);
        }
    }
}

fn reply_fits(reply: &Reply)
    ensures { ReplyInRange reply.now }
{
    match reply {
        Reply::Ok(good) => good_fits(good),
        Reply::SplitBrain(views) => views_fit(views.as_array()),
        _ => {}
    }
}

fn heal_reply_fits(reply: &HealReply)
    ensures { HealReplyInRange reply.now }
{
    match reply {
        HealReply::Split(views) => views_fit(views.as_array()),
        HealReply::Busy(owner) => short_fits(owner.0),
        HealReply::Moved(brick) => byte_fits(brick.0),
        _ => {}
    }
}

/// Each number of a line is in its range. Whoever adds a line to a log, or judges one, needs it of the line; it takes as many steps as the lists in the line have elements.
pub fn fits_its_types(line: &Line)
    ensures { InRange line.now }
{
    match line {
        Line::Ask {
            actor,
            brick,
            request,
            told,
            ..
        } => {
            short_fits(actor.0);
            byte_fits(brick.0);
            request_fits_its_types(request);
            told_fits(told);
        }
        Line::Begin { actor, change } => {
            short_fits(actor.0);
            change_fits(change);
        }
        Line::HealBegin { actor, gfid, .. } => {
            short_fits(actor.0);
            gfid_fits(*gfid);
        }
        Line::End { actor, reply } => {
            short_fits(actor.0);
            reply_fits(reply);
        }
        Line::HealEnd {
            actor,
            gfid,
            reply,
            ..
        } => {
            short_fits(actor.0);
            gfid_fits(*gfid);
            heal_reply_fits(reply);
        }
        Line::Event { event } => event_fits(*event),
    }
}
