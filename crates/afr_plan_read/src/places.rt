//! Which words may begin a line after which others.
ghost use Rattle.std.specs.Prelude.{◌≡◌, ◌∷◌, [], codes, length, reverse, map, take_while, not, ◌==◌};
ghost use Rattle.afr_plan.specs.Rules.{is_one_of, words_after};
ghost use Rattle.afr_plan.specs.Rules as rule;
ghost use Rattle.afr_plan.specs.Judging as judging;
ghost use Rattle.afr_plan_line.specs.Seen.{seen};

use afr_plan_line::{Spoken, is_same, skip};

/// A line begins with some words, and these end there.
fn begins(words: &[u8], line: &[u8]) -> bool
    ensures { result ≡ judging.begins words.now line.now }
{
    match skip(words, line) {
        None => false,
        Some([]) => true,
        Some([b, ..]) => *b == b' ',
    }
}

fn word_len(line: &[u8]) -> usize
    ensures { result ≡ length (take_while (λ b. not (b == 32)) line.now) }
{
    line.iter().take_while(|b| **b != b' ').count()
}

/// What stands before the first space.
#[tactic(auto, using(afr_plan_line::proofs::Front::front_take))]
fn first_word(line: &[u8]) -> &[u8]
    ensures { result.now ≡ judging.first_word line.now }
{
    &line[..word_len(line)]
}

fn after_go(word: &[u8]) -> bool
    ensures { result ≡ is_one_of rule.after_go word.now }
{
    is_same(word, b"go") || is_same(word, b"end")
}

fn after_event(word: &[u8]) -> bool
    ensures { result ≡ is_one_of rule.after_event word.now }
{
    is_same(word, b"at") || after_go(word)
}

fn after_fault(word: &[u8]) -> bool
    ensures { result ≡ is_one_of rule.after_fault word.now }
{
    is_same(word, b"fault") || after_event(word)
}

fn after_healers(word: &[u8]) -> bool
    ensures { result ≡ is_one_of rule.after_healers word.now }
{
    is_same(word, b"healer") || after_fault(word)
}

fn after_round(word: &[u8]) -> bool
    ensures { result ≡ is_one_of rule.after_round word.now }
{
    is_same(word, b"round") || after_healers(word)
}

fn after_turns(word: &[u8]) -> bool
    ensures { result ≡ is_one_of rule.after_turns word.now }
{
    is_same(word, b"client") || after_healers(word)
}

fn after_changes(word: &[u8]) -> bool
    ensures { result ≡ is_one_of rule.after_changes word.now }
{
    is_same(word, b"ls")
        || (is_same(word, b"stat")
            || (is_same(word, b"setattr") || (is_same(word, b"getattr") || after_turns(word))))
}

fn after_bytes(word: &[u8]) -> bool
    ensures { result ≡ is_one_of rule.after_bytes word.now }
{
    is_same(word, b"create")
        || (is_same(word, b"mkdir")
            || (is_same(word, b"unlink")
                || (is_same(word, b"rmdir") || (is_same(word, b"rename") || after_changes(word)))))
}

fn after_command(word: &[u8]) -> bool
    ensures { result ≡ is_one_of rule.after_command word.now }
{
    is_same(word, b"write")
        || (is_same(word, b"cut") || (is_same(word, b"read") || after_bytes(word)))
}

fn may_follow(newest: &Spoken, word: &[u8]) -> bool
    ensures { result ≡ is_one_of (words_after (seen newest.now)) word.now }
{
    match newest {
        Spoken::Afr(_) => is_same(word, b"volume"),
        Spoken::Volume(_, _) => is_same(word, b"files"),
        Spoken::Files(_) => is_same(word, b"turns"),
        Spoken::Turns(_) => after_turns(word),
        Spoken::Client(_) => after_command(word),
        Spoken::Command { path: _, action: _ } => after_command(word),
        Spoken::Healer(_) => after_round(word),
        Spoken::Round(_) => after_round(word),
        Spoken::Faulty {
            brick: _,
            at: _,
            fault: _,
        } => after_fault(word),
        Spoken::At { at: _, event: _ } => after_event(word),
        Spoken::Go { who: _, count: _ } => after_go(word),
        Spoken::End => false,
    }
}

/// Whether a line begins with the words of a first line, in one of the two versions.
fn begins_plan(line: &[u8]) -> bool
    ensures { result ≡ judging.begins_plan line.now }
{
    begins(b"afr 1", line) || begins(b"afr 2", line)
}

/// Whether a line's first words may stand here.
pub(crate) fn may_begin(before: &[Spoken], line: &[u8]) -> bool
    ensures { result ≡ judging.may_begin (reverse (map seen before.now)) line.now }
{
    match before {
        [] => begins_plan(line),
        [.., newest] => may_follow(newest, first_word(line)),
    }
}

/// Whether `end` was read.
pub(crate) fn is_over(before: &[Spoken]) -> bool
    ensures { result ≡ rule.is_over (reverse (map seen before.now)) }
{
    match before {
        [] => false,
        [.., newest] => matches!(newest, Spoken::End),
    }
}
