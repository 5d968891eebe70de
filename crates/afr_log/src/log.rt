//! The log: its lines in order, and what its readers ask of one line.
ghost use Rattle.std.specs.Prelude.{◌≡◌, ◌++◌, ◌∷◌, ◌<◌, ◌≤◌, ℕ, List, [], true, false, None, is_some, length, slice_get, IfOk, OnOk, Some, vec_len, vec_capacity};
ghost use Rattle.std.specs.Option.{option_copied, option_map};
ghost use Rattle.afr_lines.specs.Told.{told_by};
ghost use Rattle.afr_lines.specs.declared.line.Line.TheVariants.{Ask};
ghost use Rattle.afr_lines.specs.declared.line.Line.{Line};
ghost use Rattle.afr_log.specs.Entries.{IsThere, ask_by, line_of};
ghost use Rattle.afr_log.specs.Log.{asked_line, shown_line, told_line, unasked, waits_for};

use crate::asked::{Asker, unpack};
use crate::heals::pack_line;
use crate::marked::pack_shown;
use crate::packed::{By, Packed, short_of};
use crate::packing::pack;
use crate::shown::{ShownLine, ToldLine, show};
use crate::waits::{entry_asks, entry_unasked, entry_waits};
use afr_base::{ActorId, BrickId, NoMemory};
use afr_lines::{Answer, Line, Request, Told, told_of};
use std::alloc::Global;
use std::marker::Model;

/// The log of a volume. It keeps most requests packed, and the beginnings and ends of heals, and all other lines as they are.
#[derive(Drop)]
pub struct Log {
    /// One entry a line.
    packed: Vec<Packed>,
    /// The lines that are kept as they are, in their order.
    kept: Vec<Line>,
}

impl Model for Log {
    ghost use Rattle.std.specs.Prelude.{◌&&◌, nat_lt, vec_len, vec_capacity, length};
    ghost use Rattle.afr_log.specs.Entries.{AreThere, lines_in};
    ghost use Rattle.afr_log.specs.Log.{Logged};

    ghost Value = { Logged };

    ghost view = { λ l. record { items = lines_in l.kept.items l.packed.items; room = nat_lt (vec_len l.packed) (vec_capacity l.packed) && nat_lt (vec_len l.kept) (vec_capacity l.kept) } };

    ghost invariant = { λ l. AreThere (length l.kept.items) l.packed.items };
}

impl Log {
    /// An empty log, which takes no memory.
    pub fn new(alloc: Global) -> Log
        ensures { result.items ≡ [] }
    {
        Log {
            packed: Vec::new(alloc),
            kept: Vec::new(alloc),
        }
    }

    /// The log of these lines.
    pub fn of(alloc: Global, lines: Vec<Line>) -> Result<Log, NoMemory>
        ensures { IfOk result (λ log. log.items ≡ lines.items) }
    {
        let mut log = Log::new(alloc);
        for line in lines {
            log.make_room()?;
            log.add(line);
        }
        Ok(log)
    }

    pub fn len(&self) -> usize
        ensures { result ≡ length self.now.items }
    {
        self.packed.len()
    }

    /// Room for one line more. A log that has it isn't asked for any.
    #[inline]
    pub fn make_room(&mut self) -> Result<(), NoMemory>
        ensures room { OnOk result (self.new.room ≡ true) }
        ensures items { self.new.items ≡ self.old.items }
    {
        if self.packed.len() == self.packed.capacity() || self.kept.len() == self.kept.capacity() {
            return self.grow();
        }
        Ok(())
    }

    /// It stands apart, so that a line for which there is room pays for no call.
    #[inline(never)]
    fn grow(&mut self) -> Result<(), NoMemory>
        ensures room { OnOk result (self.new.room ≡ true) }
        ensures items { self.new.items ≡ self.old.items }
    {
        if self.packed.len() == self.packed.capacity() {
            self.packed.try_reserve(1)?;
        }
        if self.kept.len() == self.kept.capacity() {
            self.kept.try_reserve(1)?;
        }
        Ok(())
    }

    /// Adds a line.
    #[inline]
    pub fn add(&mut self, line: Line)
        requires { self.old.room ≡ true }
        ensures { self.new.items ≡ self.old.items ++ line ∷ [] }
    {
        match pack_line(&line) {
            Some(entry) => self.put(entry, &line),
            None => self.keep(line),
        }
    }

    /// Adds the entry of a line.
    fn put(&mut self, entry: Packed, _line: &Line)
        requires room { self.old.room ≡ true }
        requires line { (kept : List Line) → line_of kept entry ≡ _line.now }
        requires there { (count : ℕ) → IsThere count entry }
        ensures { self.new.items ≡ self.old.items ++ _line.now ∷ [] }
    {
        push_entry(&mut self.packed, entry);
    }

    /// Adds a line, which is kept as it is. It stands apart, so that only such lines pay for its frame.
    #[inline(never)]
    fn keep(&mut self, line: Line)
        requires { self.old.room ≡ true }
        ensures { self.new.items ≡ self.old.items ++ line ∷ [] }
    {
        let place = self.kept.as_slice().len();
        push_line(&mut self.kept, line);
        push_entry(&mut self.packed, Packed::Kept(place));
    }

    /// Adds the line of a request and its answer.
    pub fn add_ask(
        &mut self,
        actor: ActorId,
        brick: BrickId,
        request: &Request,
        answer: &Answer,
        took: bool,
    )
        requires { self.old.room ≡ true }
        ensures { self.new.items ≡ self.old.items ++ Ask actor brick request.now (told_by answer.now) took ∷ [] }
    {
        match short_of(answer) {
            Some(told) => {
                let by = By {
                    actor,
                    brick,
                    took,
                    told,
                };
                if self.add_short(request, by).is_none() {
                    self.keep_ask(actor, brick, request, answer, took);
                }
            }
            None => self.add_shown(actor, brick, request, answer, took),
        }
    }

    /// A request whose answer isn't short: a look that shows numbers. It stands apart, so that only such requests pay for its
    /// frame.
    #[inline(never)]
    fn add_shown(
        &mut self,
        actor: ActorId,
        brick: BrickId,
        request: &Request,
        answer: &Answer,
        took: bool,
    )
        requires { self.old.room ≡ true }
        ensures { self.new.items ≡ self.old.items ++ Ask actor brick request.now (told_by answer.now) took ∷ [] }
    {
        match pack_shown(actor, brick, request, answer, took) {
            Some(entry) => push_entry(&mut self.packed, entry),
            None => self.keep_ask(actor, brick, request, answer, took),
        }
    }

    /// A request whose line is kept as it is. It stands apart, so that only such requests pay for a frame that holds a line.
    #[inline(never)]
    fn keep_ask(
        &mut self,
        actor: ActorId,
        brick: BrickId,
        request: &Request,
        answer: &Answer,
        took: bool,
    )
        requires { self.old.room ≡ true }
        ensures { self.new.items ≡ self.old.items ++ Ask actor brick request.now (told_by answer.now) took ∷ [] }
    {
        self.keep(Line::Ask {
            actor,
            brick,
            request: *request,
            told: told_of(answer),
            took,
        });
    }

    /// A request whose answer is short, where it has an entry of its own.
    fn add_short(&mut self, request: &Request, by: By) -> Option<()>
        requires { self.old.room ≡ true }
        ensures some { is_some result ≡ true → self.new.items ≡ self.old.items ++ ask_by by request.now ∷ [] }
        ensures none { is_some result ≡ false → self.new ≡ self.old }
    {
        pack(&mut self.packed, request, by)
    }

    /// The line at a position.
    pub fn line(&self, at: usize) -> Option<ShownLine<'_>>
        ensures { option_map shown_line result ≡ slice_get self.now.items at }
    {
        match entry_at(self.packed.as_slice(), at) {
            Some(entry) => Some(show(entry, self.kept.as_slice())),
            None => None,
        }
    }

    /// Who asked by the line at a position, where it is a packed request: that and what was told are
    /// written where they are to stand, since a whole line is large. None says nothing: `line` shows
    /// each line.
    pub fn asked_at(&self, at: usize, request: &mut Request, told: &mut Told) -> Option<Asker>
        ensures { (by : Asker) → result ≡ Some by → slice_get self.now.items at ≡ Some (asked_line by request.new told.new) }
    {
        match entry_at(self.packed.as_slice(), at) {
            Some(entry) => unpack(entry, request, told),
            None => None,
        }
    }

    /// Whether there is no line at a position that is no request; then `told_at` shows none. That is one look at its entry.
    #[inline]
    pub fn is_asked(&self, at: usize) -> bool
        ensures { result ≡ true → unasked (slice_get self.now.items at) ≡ None }
    {
        match entry_at(self.packed.as_slice(), at) {
            Some(entry) => entry_asks(entry),
            None => true,
        }
    }

    /// The line at a position, where it is no request.
    pub fn told_at(&self, at: usize) -> Option<ToldLine<'_>>
        ensures { option_map told_line result ≡ unasked (slice_get self.now.items at) }
    {
        match entry_at(self.packed.as_slice(), at) {
            Some(entry) => entry_unasked(entry, self.kept.as_slice()),
            None => None,
        }
    }

    /// Whom the line at a position waits for: the holder of the transaction lock that it asked.
    #[inline]
    pub fn waits_at(&self, at: usize) -> Option<ActorId>
        ensures line { (line : Line) → slice_get self.now.items at ≡ Some line → result ≡ waits_for line }
        ensures past { length self.now.items ≤ at → result ≡ None }
    {
        match entry_at(self.packed.as_slice(), at) {
            Some(entry) => entry_waits(entry, self.kept.as_slice()),
            None => None,
        }
    }
}

/// The entry at a position.
fn entry_at(packed: &[Packed], at: usize) -> Option<&Packed>
    ensures { option_copied result ≡ slice_get packed.now at }
{
    packed.get(at)
}

/// Adds an entry for which there is room.
fn push_entry(packed: &mut Vec<Packed>, entry: Packed)
    requires { vec_len packed.old < vec_capacity packed.old }
    ensures items { packed.new.items ≡ packed.old.items ++ entry ∷ [] }
{
    packed.push_reserved(entry);
}

/// Adds a line for which there is room.
fn push_line(kept: &mut Vec<Line>, line: Line)
    requires { vec_len kept.old < vec_capacity kept.old }
    ensures { kept.new.items ≡ kept.old.items ++ line ∷ [] }
{
    let _request = Request::Index; // a push of a value that holds such an enum is proved where the body names it
    kept.push_reserved(line);
}
