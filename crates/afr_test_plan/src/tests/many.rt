//! A plan of so many words that its tables hash them anew, under the key of its text.
use afr_base::NameId;
use afr_plan::{Command, Plan};
use afr_plan_print::print_plan;
use afr_plan_read::read_plan;
use std::alloc::Global;
use std::test::Fail;

/// The words of each kind: far more than a table hashes without a key.
const WORDS: usize = 600;

/// The number of a command's words. Every other command has new ones; those between have words of half
/// the number, which were there before.
fn number_in(command: usize) -> usize {
    if command % 2 == 0 {
        command / 2
    } else {
        command / 4
    }
}

fn text_of_many(alloc: Global) -> Result<String, Fail> {
    let mut text = String::new(alloc);
    text.push_str("afr 1\nvolume replica\nfiles 0\nturns 1\nclient 1\n")?;
    for command in 0..2 * WORDS {
        let k = number_in(command);
        let line = format!(in alloc; "setattr /name{k} key{k} value{k}\n")?;
        text.push_str(line.as_str())?;
    }
    text.push_str("end\n")?;
    Ok(text)
}

fn is_path_of(path: &[NameId], number: usize) -> bool {
    match path {
        [name] => name.0 as usize == number,
        _ => false,
    }
}

fn has_number(command: &Command, number: usize) -> bool {
    match command {
        Command::SetAttr { path, key, value } => {
            is_path_of(path.as_slice(), number)
                && key.0 as usize == number
                && value.0 as usize == number
        }
        _ => false,
    }
}

fn are_numbered(script: &[Command]) -> bool {
    script.len() == 2 * WORDS
        && script
            .iter()
            .enumerate()
            .all(|(at, command)| has_number(command, number_in(at)))
}

fn is_numbered(plan: &Plan) -> bool {
    match plan.clients.as_slice() {
        [script] => are_numbered(script.as_slice()),
        _ => false,
    }
}

fn is_printed(alloc: Global, plan: &Plan, want: &str) -> bool {
    match print_plan(alloc, plan) {
        Ok(text) => text.as_str() == want,
        Err(_) => false,
    }
}

/// Whether the text is read with its words numbered by first sight, and printed as it was.
fn is_read_as_numbered(alloc: Global, text: &str) -> bool {
    match read_plan(alloc, text.as_bytes()) {
        Ok(plan) => is_numbered(&plan) && is_printed(alloc, &plan, text),
        Err(_) => false,
    }
}

fn many_are_numbered(alloc: Global) -> Result<bool, Fail> {
    let text = text_of_many(alloc)?;
    Ok(is_read_as_numbered(alloc, text.as_str()))
}

#[test]
fn many_words_are_numbered_by_first_sight(rt: HostRuntime) -> Result<(), Fail> {
    let numbered = many_are_numbered(rt.alloc())?;
    assert!(rt; numbered);
    Ok(())
}
