//! What a line says, form by form.
ghost use Rattle.std.specs.Prelude.{◌≡◌};
ghost use Rattle.std.specs.Option.{option_map};
ghost use Rattle.afr_plan.specs.Reading.{all_used, whole};
ghost use Rattle.afr_plan.specs.Reading as reading;
ghost use Rattle.afr_plan.specs.SaidReading.{volume_one_at, volume_two_at, files_at, turns_at, client_at, write_at, cut_at, read_at, path_line, named_line, set_at, get_at, rename_at, healer_at, round_at, fault_at, event_at, order_at, shape_one_at, shape_two_at, kind_at, one_of, command_forms, line_forms, said};
ghost use Rattle.afr_plan.specs.Said.{three_replicas, three_with_arbiter, five_replicas};
ghost use Rattle.afr_plan_line.specs.Seen.{seen, seen_action};

use crate::bytes::{key, number, skip, small};
use crate::parts::{data, event, who};
use crate::path::{named_path, path};
use crate::spoken::{Spoken, SpokenAction};
use afr_base::Shape;
use afr_lines::Fault;
use afr_plan::{Version, limits};

/// What was read, if nothing follows it.
fn alone<'a>(value: Spoken<'a>, rest: &[u8]) -> Option<Spoken<'a>>
    ensures { option_map seen result ≡ all_used (seen value.entry, rest.now) }
{
    if rest.is_empty() { Some(value) } else { None }
}

fn three_replicas() -> Shape
    ensures { result ≡ three_replicas }
{
    Shape {
        n: limits::FEWEST_BRICKS,
        arbiter: false,
    }
}

fn three_with_arbiter() -> Shape
    ensures { result ≡ three_with_arbiter }
{
    Shape {
        n: limits::FEWEST_BRICKS,
        arbiter: true,
    }
}

fn five_replicas() -> Shape
    ensures { result ≡ five_replicas }
{
    Shape {
        n: limits::MOST_BRICKS,
        arbiter: false,
    }
}

/// The shape in version 1, which says no number.
#[tactic(auto, unfolding(afr_plan::specs::SaidReading::shape_one_at))]
fn shape_one(bytes: &[u8]) -> Option<(Shape, &[u8])>
    ensures { option_map (λ x. (x.0, x.1.now)) result ≡ shape_one_at bytes.now }
{
    if let Some(rest) = skip(b"replica", bytes) {
        return Some((three_replicas(), rest));
    }
    let rest = skip(b"arbiter", bytes)?;
    Some((three_with_arbiter(), rest))
}

/// The shape in version 2, with the number of bricks.
#[tactic(auto, unfolding(afr_plan::specs::SaidReading::shape_two_at))]
fn shape_two(bytes: &[u8]) -> Option<(Shape, &[u8])>
    ensures { option_map (λ x. (x.0, x.1.now)) result ≡ shape_two_at bytes.now }
{
    if let Some(rest) = skip(b"replica 3", bytes) {
        return Some((three_replicas(), rest));
    }
    if let Some(rest) = skip(b"replica 5", bytes) {
        return Some((five_replicas(), rest));
    }
    let rest = skip(b"arbiter 3", bytes)?;
    Some((three_with_arbiter(), rest))
}

#[tactic(auto, unfolding(afr_plan::specs::SaidReading::volume_one_at))]
fn volume_one(line: &[u8]) -> Option<Spoken>
    ensures { option_map seen result ≡ whole volume_one_at line.now }
{
    let rest = skip(b"volume ", line)?;
    let (shape, rest) = shape_one(rest)?;
    alone(Spoken::Volume(Version::One, shape), rest)
}

#[tactic(auto, unfolding(afr_plan::specs::SaidReading::volume_two_at))]
fn volume_two(line: &[u8]) -> Option<Spoken>
    ensures { option_map seen result ≡ whole volume_two_at line.now }
{
    let rest = skip(b"volume ", line)?;
    let (shape, rest) = shape_two(rest)?;
    alone(Spoken::Volume(Version::Two, shape), rest)
}

#[tactic(auto, unfolding(afr_plan::specs::SaidReading::files_at))]
fn files(line: &[u8]) -> Option<Spoken>
    ensures { option_map seen result ≡ whole files_at line.now }
{
    let rest = skip(b"files ", line)?;
    let (number, rest) = number(rest)?;
    alone(Spoken::Files(number), rest)
}

#[tactic(auto, unfolding(afr_plan::specs::SaidReading::turns_at))]
fn turns(line: &[u8]) -> Option<Spoken>
    ensures { option_map seen result ≡ whole turns_at line.now }
{
    let rest = skip(b"turns ", line)?;
    let (number, rest) = number(rest)?;
    alone(Spoken::Turns(number), rest)
}

#[tactic(auto, unfolding(afr_plan::specs::SaidReading::client_at))]
fn client(line: &[u8]) -> Option<Spoken>
    ensures { option_map seen result ≡ whole client_at line.now }
{
    let rest = skip(b"client ", line)?;
    let (number, rest) = number(rest)?;
    alone(Spoken::Client(number), rest)
}

#[tactic(auto, unfolding(afr_plan::specs::SaidReading::healer_at))]
fn healer(line: &[u8]) -> Option<Spoken>
    ensures { option_map seen result ≡ whole healer_at line.now }
{
    let rest = skip(b"healer ", line)?;
    let (number, rest) = number(rest)?;
    alone(Spoken::Healer(number), rest)
}

#[tactic(auto, unfolding(afr_plan::specs::SaidReading::round_at))]
fn round(line: &[u8]) -> Option<Spoken>
    ensures { option_map seen result ≡ whole round_at line.now }
{
    let rest = skip(b"round ", line)?;
    let (brick, rest) = small(rest)?;
    alone(Spoken::Round(brick), rest)
}

#[tactic(auto, unfolding(afr_plan::specs::SaidReading::kind_at))]
fn kind(bytes: &[u8]) -> Option<(Fault, &[u8])>
    ensures { option_map (λ x. (x.0, x.1.now)) result ≡ kind_at bytes.now }
{
    if let Some(rest) = skip(b"fail", bytes) {
        return Some((Fault::Fail, rest));
    }
    let rest = skip(b"lost", bytes)?;
    Some((Fault::Lost, rest))
}

#[tactic(auto, unfolding(afr_plan::specs::SaidReading::fault_at))]
fn faulty(line: &[u8]) -> Option<Spoken>
    ensures { option_map seen result ≡ whole fault_at line.now }
{
    let rest = skip(b"fault ", line)?;
    let (brick, rest) = small(rest)?;
    let rest = skip(b" ", rest)?;
    let (at, rest) = number(rest)?;
    let rest = skip(b" ", rest)?;
    let (fault, rest) = kind(rest)?;
    alone(Spoken::Faulty { brick, at, fault }, rest)
}

#[tactic(auto, unfolding(afr_plan::specs::SaidReading::event_at))]
fn at_position(line: &[u8]) -> Option<Spoken>
    ensures { option_map seen result ≡ whole event_at line.now }
{
    let rest = skip(b"at ", line)?;
    let (at, rest) = number(rest)?;
    let rest = skip(b" ", rest)?;
    let (event, rest) = event(rest)?;
    alone(Spoken::At { at, event }, rest)
}

#[tactic(auto, unfolding(afr_plan::specs::SaidReading::order_at))]
fn order(line: &[u8]) -> Option<Spoken>
    ensures { option_map seen result ≡ whole order_at line.now }
{
    let rest = skip(b"go ", line)?;
    let (who, rest) = who(rest)?;
    let rest = skip(b" ", rest)?;
    let (count, rest) = number(rest)?;
    alone(Spoken::Go { who, count }, rest)
}

#[tactic(auto, unfolding(afr_plan::specs::SaidReading::write_at))]
fn write(line: &[u8]) -> Option<Spoken>
    ensures { option_map seen result ≡ whole write_at line.now }
{
    let rest = skip(b"write ", line)?;
    let (path, rest) = path(rest)?;
    let rest = skip(b" ", rest)?;
    let (at, rest) = number(rest)?;
    let rest = skip(b" ", rest)?;
    let (data, rest) = data(rest)?;
    let action = SpokenAction::Write { at, data };
    alone(Spoken::Command { path, action }, rest)
}

#[tactic(auto, unfolding(afr_plan::specs::SaidReading::cut_at))]
fn cut(line: &[u8]) -> Option<Spoken>
    ensures { option_map seen result ≡ whole cut_at line.now }
{
    let rest = skip(b"cut ", line)?;
    let (path, rest) = path(rest)?;
    let rest = skip(b" ", rest)?;
    let (len, rest) = number(rest)?;
    let action = SpokenAction::Cut { len };
    alone(Spoken::Command { path, action }, rest)
}

#[tactic(auto, unfolding(afr_plan::specs::SaidReading::read_at))]
fn read(line: &[u8]) -> Option<Spoken>
    ensures { option_map seen result ≡ whole read_at line.now }
{
    let rest = skip(b"read ", line)?;
    let (path, rest) = path(rest)?;
    let rest = skip(b" ", rest)?;
    let (at, rest) = number(rest)?;
    let rest = skip(b" ", rest)?;
    let (len, rest) = number(rest)?;
    let action = SpokenAction::Read { at, len };
    alone(Spoken::Command { path, action }, rest)
}

/// A word and a path.
#[tactic(auto, unfolding(afr_plan::specs::SaidReading::path_line))]
fn on_path<'a>(word: &[u8], action: SpokenAction<'a>, line: &'a [u8]) -> Option<Spoken<'a>>
    ensures { option_map seen result ≡ whole (path_line word.now (seen_action action.entry)) line.now }
{
    let rest = skip(word, line)?;
    let (path, rest) = path(rest)?;
    alone(Spoken::Command { path, action }, rest)
}

/// A word and a path other than `/`.
#[tactic(auto, unfolding(afr_plan::specs::SaidReading::named_line))]
fn on_named_path<'a>(word: &[u8], action: SpokenAction<'a>, line: &'a [u8]) -> Option<Spoken<'a>>
    ensures { option_map seen result ≡ whole (named_line word.now (seen_action action.entry)) line.now }
{
    let rest = skip(word, line)?;
    let (path, rest) = named_path(rest)?;
    alone(Spoken::Command { path, action }, rest)
}

#[tactic(auto, unfolding(afr_plan::specs::SaidReading::set_at))]
fn set_attr(line: &[u8]) -> Option<Spoken>
    ensures { option_map seen result ≡ whole set_at line.now }
{
    let rest = skip(b"setattr ", line)?;
    let (path, rest) = path(rest)?;
    let rest = skip(b" ", rest)?;
    let (name, rest) = key(rest)?;
    let rest = skip(b" ", rest)?;
    let (value, rest) = key(rest)?;
    let action = SpokenAction::SetAttr { key: name, value };
    alone(Spoken::Command { path, action }, rest)
}

#[tactic(auto, unfolding(afr_plan::specs::SaidReading::get_at))]
fn get_attr(line: &[u8]) -> Option<Spoken>
    ensures { option_map seen result ≡ whole get_at line.now }
{
    let rest = skip(b"getattr ", line)?;
    let (path, rest) = path(rest)?;
    let rest = skip(b" ", rest)?;
    let (key, rest) = key(rest)?;
    let action = SpokenAction::GetAttr { key };
    alone(Spoken::Command { path, action }, rest)
}

#[tactic(auto, unfolding(afr_plan::specs::SaidReading::rename_at))]
fn rename(line: &[u8]) -> Option<Spoken>
    ensures { option_map seen result ≡ whole rename_at line.now }
{
    let rest = skip(b"rename ", line)?;
    let (path, rest) = named_path(rest)?;
    let rest = skip(b" ", rest)?;
    let (to, rest) = named_path(rest)?;
    let action = SpokenAction::Rename { to };
    alone(Spoken::Command { path, action }, rest)
}

fn plain_word<'a>(word: &[u8], line: &[u8], value: Spoken<'a>) -> Option<Spoken<'a>>
    ensures { option_map seen result ≡ whole (reading.word word.now (seen value.entry)) line.now }
{
    let rest = skip(word, line)?;
    alone(value, rest)
}

/// What a line says, where it has the form of a command.
fn say_command(line: &[u8]) -> Option<Spoken>
    ensures { option_map seen result ≡ one_of command_forms line.now }
{
    if let Some(s) = write(line) {
        return Some(s);
    }
    if let Some(s) = cut(line) {
        return Some(s);
    }
    if let Some(s) = read(line) {
        return Some(s);
    }
    if let Some(s) = on_named_path(b"create ", SpokenAction::Create, line) {
        return Some(s);
    }
    if let Some(s) = on_named_path(b"mkdir ", SpokenAction::Mkdir, line) {
        return Some(s);
    }
    if let Some(s) = on_named_path(b"unlink ", SpokenAction::Unlink, line) {
        return Some(s);
    }
    if let Some(s) = on_named_path(b"rmdir ", SpokenAction::Rmdir, line) {
        return Some(s);
    }
    if let Some(s) = on_path(b"ls ", SpokenAction::Ls, line) {
        return Some(s);
    }
    if let Some(s) = on_path(b"stat ", SpokenAction::Stat, line) {
        return Some(s);
    }
    if let Some(s) = set_attr(line) {
        return Some(s);
    }
    if let Some(s) = get_attr(line) {
        return Some(s);
    }
    rename(line)
}

/// What a line says, where it has another form.
fn say_other(line: &[u8]) -> Option<Spoken>
    ensures { option_map seen result ≡ one_of line_forms line.now }
{
    if let Some(s) = plain_word(b"afr 1", line, Spoken::Afr(Version::One)) {
        return Some(s);
    }
    if let Some(s) = plain_word(b"afr 2", line, Spoken::Afr(Version::Two)) {
        return Some(s);
    }
    if let Some(s) = volume_one(line) {
        return Some(s);
    }
    if let Some(s) = volume_two(line) {
        return Some(s);
    }
    if let Some(s) = files(line) {
        return Some(s);
    }
    if let Some(s) = turns(line) {
        return Some(s);
    }
    if let Some(s) = client(line) {
        return Some(s);
    }
    if let Some(s) = healer(line) {
        return Some(s);
    }
    if let Some(s) = round(line) {
        return Some(s);
    }
    if let Some(s) = faulty(line) {
        return Some(s);
    }
    if let Some(s) = at_position(line) {
        return Some(s);
    }
    if let Some(s) = order(line) {
        return Some(s);
    }
    plain_word(b"end", line, Spoken::End)
}

/// What a line says, where it has the form of a line.
#[tactic(auto, unfolding(afr_plan::specs::SaidReading::said))]
pub fn say_line(line: &[u8]) -> Option<Spoken>
    ensures { option_map seen result ≡ said line.now }
{
    if let Some(s) = say_command(line) {
        return Some(s);
    }
    say_other(line)
}
