//! The parts of a line that have several forms: data, actors and events.
ghost use Rattle.std.specs.Prelude.{◌≡◌, ◌+◌, ◌*◌, length};
ghost use Rattle.std.specs.Option.{option_map};
ghost use Rattle.afr_plan.specs.Bytes.{hex_digit};
ghost use Rattle.afr_plan.specs.Data.{is_paired, is_pair, hex_bytes, first_byte};
ghost use Rattle.afr_plan.specs.Reading.{run_of};
ghost use Rattle.afr_plan.specs.SaidReading.{quoted_at, hexed_at, filled_at, data_at, client_who_at, healer_who_at, who_at, pair_at, stop_at, start_at, cut_event_at, join_event_at, kill_at, happening_at};
ghost use Rattle.afr_plan_line.specs.Seen.{seen_data, seen_who, seen_event};

use crate::bytes::{hex_byte, hex_digits, number, skip, small, text};
use crate::spoken::{SpokenData, SpokenEvent, SpokenWho};

fn are_paired(digits: &[u8]) -> bool
    ensures { result ≡ is_paired digits.now }
{
    digits.len() % 2 == 0
}

fn paired(bytes: &[u8]) -> Option<(&[u8], &[u8])>
    ensures { option_map (λ x. (x.0.now, x.1.now)) result ≡ run_of hex_digit is_paired bytes.now }
{
    let (digits, rest) = hex_digits(bytes);
    if are_paired(digits) {
        Some((digits, rest))
    } else {
        None
    }
}

/// Two digits and no more.
fn pair(bytes: &[u8]) -> Option<(&[u8], &[u8])>
    ensures { option_map (λ x. (x.0.now, x.1.now)) result ≡ run_of hex_digit is_pair bytes.now }
{
    let (digits, rest) = hex_digits(bytes);
    if digits.len() == 2 {
        Some((digits, rest))
    } else {
        None
    }
}

/// The byte of the first two digits.
fn first_of(digits: &[u8]) -> u8
    ensures { result ≡ first_byte (hex_bytes digits.now) }
{
    match digits {
        [high, low, ..] => hex_byte(*high, *low),
        _ => 0,
    }
}

#[tactic(auto, unfolding(afr_plan::specs::SaidReading::quoted_at, afr_plan::specs::Reading::text_at))]
fn quoted(bytes: &[u8]) -> Option<(SpokenData, &[u8])>
    ensures { option_map (λ x. (seen_data x.0, x.1.now)) result ≡ quoted_at bytes.now }
{
    let rest = skip(b"\"", bytes)?;
    let (text, rest) = text(rest);
    let rest = skip(b"\"", rest)?;
    Some((SpokenData::Text(text), rest))
}

#[tactic(auto, unfolding(afr_plan::specs::SaidReading::hexed_at))]
fn hexed(bytes: &[u8]) -> Option<(SpokenData, &[u8])>
    ensures { option_map (λ x. (seen_data x.0, x.1.now)) result ≡ hexed_at bytes.now }
{
    let rest = skip(b"hex:", bytes)?;
    let (digits, rest) = paired(rest)?;
    Some((SpokenData::Hex(digits), rest))
}

#[tactic(auto, unfolding(afr_plan::specs::SaidReading::filled_at))]
fn filled(bytes: &[u8]) -> Option<(SpokenData, &[u8])>
    ensures { option_map (λ x. (seen_data x.0, x.1.now)) result ≡ filled_at bytes.now }
{
    let rest = skip(b"fill:", bytes)?;
    let (count, rest) = number(rest)?;
    let rest = skip(b":", rest)?;
    let (digits, rest) = pair(rest)?;
    Some((SpokenData::Fill(count, first_of(digits)), rest))
}

/// Data in one of its forms, and what follows it.
#[tactic(auto, unfolding(afr_plan::specs::SaidReading::data_at))]
pub(crate) fn data(bytes: &[u8]) -> Option<(SpokenData, &[u8])>
    ensures { option_map (λ x. (seen_data x.0, x.1.now)) result ≡ data_at bytes.now }
{
    if let Some(x) = quoted(bytes) {
        return Some(x);
    }
    if let Some(x) = hexed(bytes) {
        return Some(x);
    }
    filled(bytes)
}

#[tactic(auto, unfolding(afr_plan::specs::SaidReading::client_who_at))]
fn client_who(bytes: &[u8]) -> Option<(SpokenWho, &[u8])>
    ensures { option_map (λ x. (seen_who x.0, x.1.now)) result ≡ client_who_at bytes.now }
{
    let rest = skip(b"c", bytes)?;
    let (i, rest) = small(rest)?;
    Some((SpokenWho::OfClient(i), rest))
}

#[tactic(auto, unfolding(afr_plan::specs::SaidReading::healer_who_at))]
fn healer_who(bytes: &[u8]) -> Option<(SpokenWho, &[u8])>
    ensures { option_map (λ x. (seen_who x.0, x.1.now)) result ≡ healer_who_at bytes.now }
{
    let rest = skip(b"h", bytes)?;
    let (j, rest) = small(rest)?;
    Some((SpokenWho::OfHealer(j), rest))
}

/// An actor, and what follows it.
#[tactic(auto, unfolding(afr_plan::specs::SaidReading::who_at))]
pub(crate) fn who(bytes: &[u8]) -> Option<(SpokenWho, &[u8])>
    ensures { option_map (λ x. (seen_who x.0, x.1.now)) result ≡ who_at bytes.now }
{
    if let Some(x) = client_who(bytes) {
        return Some(x);
    }
    healer_who(bytes)
}

#[tactic(auto, unfolding(afr_plan::specs::SaidReading::stop_at))]
fn stop(bytes: &[u8]) -> Option<(SpokenEvent, &[u8])>
    ensures { option_map (λ x. (seen_event x.0, x.1.now)) result ≡ stop_at bytes.now }
{
    let rest = skip(b"stop ", bytes)?;
    let (brick, rest) = small(rest)?;
    Some((SpokenEvent::Stop(brick), rest))
}

#[tactic(auto, unfolding(afr_plan::specs::SaidReading::start_at))]
fn start(bytes: &[u8]) -> Option<(SpokenEvent, &[u8])>
    ensures { option_map (λ x. (seen_event x.0, x.1.now)) result ≡ start_at bytes.now }
{
    let rest = skip(b"start ", bytes)?;
    let (brick, rest) = small(rest)?;
    Some((SpokenEvent::Start(brick), rest))
}

#[tactic(auto, unfolding(afr_plan::specs::SaidReading::cut_event_at, afr_plan::specs::SaidReading::pair_at))]
fn cut(bytes: &[u8]) -> Option<(SpokenEvent, &[u8])>
    ensures { option_map (λ x. (seen_event x.0, x.1.now)) result ≡ cut_event_at bytes.now }
{
    let rest = skip(b"cut ", bytes)?;
    let (who, rest) = who(rest)?;
    let rest = skip(b" ", rest)?;
    let (brick, rest) = small(rest)?;
    Some((SpokenEvent::Cut(who, brick), rest))
}

#[tactic(auto, unfolding(afr_plan::specs::SaidReading::join_event_at, afr_plan::specs::SaidReading::pair_at))]
fn join(bytes: &[u8]) -> Option<(SpokenEvent, &[u8])>
    ensures { option_map (λ x. (seen_event x.0, x.1.now)) result ≡ join_event_at bytes.now }
{
    let rest = skip(b"join ", bytes)?;
    let (who, rest) = who(rest)?;
    let rest = skip(b" ", rest)?;
    let (brick, rest) = small(rest)?;
    Some((SpokenEvent::Join(who, brick), rest))
}

#[tactic(auto, unfolding(afr_plan::specs::SaidReading::kill_at))]
fn kill(bytes: &[u8]) -> Option<(SpokenEvent, &[u8])>
    ensures { option_map (λ x. (seen_event x.0, x.1.now)) result ≡ kill_at bytes.now }
{
    let rest = skip(b"kill ", bytes)?;
    let (who, rest) = who(rest)?;
    Some((SpokenEvent::Kill(who), rest))
}

/// An event, and what follows it.
#[tactic(auto, unfolding(afr_plan::specs::SaidReading::happening_at))]
pub(crate) fn event(bytes: &[u8]) -> Option<(SpokenEvent, &[u8])>
    ensures { option_map (λ x. (seen_event x.0, x.1.now)) result ≡ happening_at bytes.now }
{
    if let Some(x) = stop(bytes) {
        return Some(x);
    }
    if let Some(x) = start(bytes) {
        return Some(x);
    }
    if let Some(x) = cut(bytes) {
        return Some(x);
    }
    if let Some(x) = join(bytes) {
        return Some(x);
    }
    kill(bytes)
}

/// How many bytes a piece of data stands for.
pub fn data_len(bytes: &SpokenData) -> usize
    ensures { result ≡ length (seen_data bytes.now) }
{
    match bytes {
        SpokenData::Text(text) => text.len(),
        SpokenData::Hex(digits) => hex_len(digits),
        SpokenData::Fill(count, _) => *count as usize,
    }
}

/// How many bytes pairs of digits stand for.
fn hex_len(digits: &[u8]) -> usize
    ensures { result ≡ length (hex_bytes digits.now) }
{
    digits.len() / 2
}
