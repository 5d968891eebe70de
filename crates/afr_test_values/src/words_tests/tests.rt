//! Words of the program, and the forms that they ask for.
use afr_words::{Form, are_refused, form_of};
use std::alloc::Global;
use std::test::Fail;

/// Words, whether they are refused at sight, and the form that they ask for.
const CASES: [(&[&str], bool, Option<Form>); 35] = [
    (&["run"], false, Some(Form::Run)),
    (&["trace"], false, Some(Form::Trace)),
    (&["info"], false, Some(Form::Info)),
    (&[], true, None),
    (&["help"], true, None),
    (&["help", "run"], true, None),
    (&["--help"], true, None),
    (&["-h"], true, None),
    (&["-"], true, None),
    (&["run", "-x"], true, None),
    (&["run", "--"], true, None),
    (&["run", "x"], false, None),
    (&["run", "run"], false, None),
    (&["run", "help"], false, None),
    (&["trace", "info"], false, None),
    (&["Run"], false, None),
    (&["ru"], false, None),
    (&[""], false, None),
    (&["run", ""], false, None),
    (&["gen", "1"], false, Some(Form::Gen(1))),
    (&["gen", "970"], false, Some(Form::Gen(970))),
    (&["gen", "2000"], false, Some(Form::Gen(2000))),
    (&["gen"], false, None),
    (&["gen", ""], false, None),
    (&["gen", "0"], false, None),
    (&["gen", "2001"], false, None),
    (&["gen", "4294967297"], false, None),
    (&["gen", "01"], false, None),
    (&["gen", "+1"], false, None),
    (&["gen", "-1"], true, None),
    (&["gen", "1 "], false, None),
    (&["gen", "1", "2"], false, None),
    (&["gen", "x"], false, None),
    (&["1", "gen"], false, None),
    (&["run", "1"], false, None),
];

/// Whether the words are refused at sight, and the form.
fn read(alloc: Global, words: &[&str]) -> Result<(bool, Option<Form>), Fail> {
    let mut given = Vec::new(alloc);
    for word in words {
        given.push(String::from_str(alloc, word)?)?;
    }
    let refused = are_refused(given.as_slice());
    let form = form_of(alloc, given.as_slice())?;
    Ok((refused, form))
}

#[test]
fn words_are_a_form_or_none(rt: HostRuntime) -> Result<(), Fail> {
    for (words, refused, form) in CASES {
        let got = read(rt.alloc(), words)?;
        assert!(rt; got == (refused, form), "{words:?}");
    }
    Ok(())
}
