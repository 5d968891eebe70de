//! A line of the log, as it is shown.
ghost use Rattle.std.specs.Prelude.{◌≡◌, ◌||◌, List, false, length, true};
ghost use Rattle.afr_lines.specs.declared.line.Line.{Line};
ghost use Rattle.afr_log.specs.Entries.{IsThere, is_marked, is_unasked, line_of};
ghost use Rattle.afr_log.specs.Log.{shown_line};

use crate::asked::put_request;
use crate::heals::{ShortEnd, begun_line, ended_line};
use crate::marked::put_marked;
use crate::packed::Packed;
use afr_base::{ActorId, Gfid, Kind};
use afr_lines::{Line, Request, Told};

/// A line that was made of its entry, or one that the log keeps.
#[derive(Debug, Drop)]
pub enum ShownLine<'a> {
    Made(Line),
    Kept(&'a Line),
}

/// A line that is no request, as the log keeps it.
#[derive(Clone, Copy, Debug)]
pub enum ToldLine<'a> {
    Kept(&'a Line),
    HealBegun {
        actor: ActorId,
        gfid: Gfid,
        kind: Kind,
    },
    HealEnded {
        actor: ActorId,
        gfid: Gfid,
        kind: Kind,
        end: ShortEnd,
    },
}

impl<'a> ShownLine<'a> {
    pub fn as_line(&self) -> &Line
        ensures { result.now ≡ shown_line self.now }
    {
        match self {
            ShownLine::Made(line) => line,
            ShownLine::Kept(line) => *line,
        }
    }
}

/// The line of an entry, where these lines are kept.
pub(crate) fn show<'a>(entry: &Packed, kept: &'a [Line]) -> ShownLine<'a>
    requires { IsThere (length kept.now) entry.now }
    ensures { shown_line result ≡ line_of kept.now entry.now }
{
    match entry {
        Packed::Kept(place) => ShownLine::Kept(&kept[*place]),
        Packed::HealBegun { kind, actor, id } => ShownLine::Made(begun_line(*actor, *id, *kind)),
        Packed::HealEnded {
            kind,
            actor,
            end,
            id,
        } => ShownLine::Made(ended_line(*actor, *id, *kind, *end)),
        Packed::FileBytes { .. }
        | Packed::FileAttrs { .. }
        | Packed::FileBoth { .. }
        | Packed::DirNames { .. }
        | Packed::DirAttrs { .. }
        | Packed::DirBoth { .. } => ShownLine::Made(marked_line(entry)),
        _ => ShownLine::Made(made(entry)),
    }
}

/// The line of an entry that holds its request and a short answer.
fn made(entry: &Packed) -> Line
    requires { (is_unasked entry.now || is_marked entry.now) ≡ false }
    ensures { (kept : List Line) → result ≡ line_of kept entry.now }
{
    let mut request = Request::Index;
    let by = put_request(entry, &mut request);
    by.ask(request)
}

/// The line of a look that shows numbers.
fn marked_line(entry: &Packed) -> Line
    requires { is_marked entry.now ≡ true }
    ensures { (kept : List Line) → result ≡ line_of kept entry.now }
{
    let mut request = Request::Index;
    let mut told = Told::Done;
    let by = put_marked(entry, &mut request, &mut told);
    Line::Ask {
        actor: by.actor,
        brick: by.brick,
        request,
        told,
        took: by.took,
    }
}
