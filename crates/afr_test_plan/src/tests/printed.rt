//! Plans that are read, printed, and read again.
use afr_plan::Plan;
use afr_plan_print::print_plan;
use afr_plan_read::read_plan;
use std::alloc::Global;
use std::test::Fail;

/// Plans that are printed as they stand.
const PLANS: [&str; 44] = [
    "afr 1\nvolume replica\nfiles 1\nturns 100000\nclient 1\nwrite /f1 0 \"1\"\nwrite /f1 0 \"2\"\nwrite /f1 0 \"3\"\nread /f1 0 1\nhealer 1\nround 0\nfault 1 8 fail\nfault 2 6 fail\nat 0 stop 1\nat 20 start 1\nat 20 stop 2\nat 41 start 2\nat 41 stop 0\nat 62 start 0\ngo c1 65\nend\n",
    "afr 1\nvolume replica\nfiles 1\nturns 100000\nclient 1\nwrite /f1 0 \"a\"\nclient 2\nwrite /f1 0 \"b\"\nend\n",
    "afr 1\nvolume replica\nfiles 1\nturns 100000\nclient 1\nwrite /f1 0 \"hello\"\nfault 1 5 fail\nfault 2 5 fail\nend\n",
    "afr 1\nvolume replica\nfiles 0\nturns 100000\nclient 1\ncreate /a\nend\n",
    "afr 1\nvolume replica\nfiles 1\nturns 100000\nclient 1\nwrite /f1 0 \"A\"\nclient 2\nwrite /f1 0 \"B\"\nat 0 cut c1 2\nat 0 cut c2 1\nat 14 stop 0\nat 14 start 0\ngo c1 12\ngo c2 19\nend\n",
    "afr 1\nvolume replica\nfiles 1\nturns 100000\nclient 1\nsetattr /f1 owner alice\nhealer 1\nround 0\nhealer 2\nround 0\nround 1\nround 2\nat 0 stop 1\nat 20 start 1\ngo c1 19\ngo h1 1000\ngo h2 1000\nend\n",
    "afr 1\nvolume replica\nfiles 1\nturns 100000\nclient 1\nunlink /f1\nclient 2\nstat /f1\nhealer 1\nround 0\nat 0 stop 2\nat 17 start 2\ngo c1 16\ngo h1 47\nend\n",
    "afr 1\nvolume replica\nfiles 1\nturns 1127\nclient 1\nwrite /f1 0 \"1\"\nwrite /f1 0 \"2\"\nwrite /f1 0 \"3\"\nread /f1 0 1\nhealer 1\nround 0\nfault 1 8 fail\nfault 2 6 fail\nat 0 stop 1\nat 20 start 1\nat 20 stop 2\nat 41 start 2\nat 41 stop 0\nat 62 start 0\ngo c1 65\nend\n",
    "afr 1\nvolume replica\nfiles 1\nturns 100000\nclient 1\nwrite /f1 0 \"1\"\nwrite /f1 0 \"2\"\nwrite /f1 0 \"3\"\nread /f1 0 1\nhealer 1\nround 0\nfault 1 8 fail\nfault 2 6 fail\nat 0 stop 1\nat 20 start 1\nat 20 stop 2\nat 41 start 2\nat 41 stop 0\nat 62 start 0\nat 107 stop 0\ngo c1 65\nend\n",
    "afr 1\nvolume replica\nfiles 0\nturns 100000\nclient 1\ncreate /a\nclient 2\ncreate /a\nclient 3\nstat /a\nhealer 1\nround 0\nat 12 kill c1\nat 12 cut c2 0\nat 24 kill c2\ngo c1 12\ngo c2 10\ngo h1 48\nend\n",
    "afr 1\nvolume replica\nfiles 1\nturns 100000\nclient 1\nwrite /f1 983040 fill:65536:61\nwrite /f1 1048575 \"xy\"\nclient 2\nwrite /f1 0 \"z\"\nhealer 1\nround 0\nat 0 stop 2\nat 21 start 2\ngo c1 20\ngo h1 48\ngo c2 24\nend\n",
    "afr 1\nvolume replica\nfiles 2\nturns 100000\nclient 1\nwrite /f1 0 \"a\"\nclient 2\nwrite /f2 0 \"b\"\nend\n",
    "afr 1\nvolume arbiter\nfiles 1\nturns 100000\nclient 1\nwrite /f1 0 \"1\"\nwrite /f1 0 \"2\"\nwrite /f1 0 \"3\"\nat 0 stop 0\nat 20 start 0\nat 20 stop 1\nat 34 start 1\nat 34 stop 2\nend\n",
    "afr 1\nvolume replica\nfiles 1\nturns 100000\nclient 1\nsetattr /f1 owner alice\nhealer 1\nround 0\nat 0 stop 1\nat 20 start 1\ngo c1 19\nend\n",
    "afr 1\nvolume replica\nfiles 1\nturns 100000\nclient 1\nunlink /f1\nhealer 1\nround 0\nhealer 2\nround 0\nround 1\nround 2\nat 0 stop 2\nat 17 start 2\ngo c1 16\ngo h1 1000\ngo h2 1000\nend\n",
    "afr 1\nvolume replica\nfiles 1\nturns 100000\nclient 1\nmkdir /d\ncreate /d/a\nrmdir /d\nunlink /d\nunlink /d/a\nrmdir /d\nls /\ncreate /f1/x\nmkdir /d2/e\ncreate /f1\nend\n",
    "afr 1\nvolume replica\nfiles 1\nturns 33\nclient 1\nwrite /f1 0 \"hello\"\nread /f1 0 5\nend\n",
    "afr 1\nvolume replica\nfiles 0\nturns 100000\nclient 1\nmkdir /src\ncreate /src/a\nwrite /src/a 0 \"one\"\nclient 2\ncreate /src/b\nwrite /src/b 0 \"two\"\nclient 3\ncreate /src/c\nwrite /src/c 0 \"three\"\nclient 4\ncreate /src/d\nwrite /src/d 0 \"four\"\nhealer 1\nround 0\nhealer 2\nround 1\nhealer 3\nround 2\nat 0 stop 2\nat 189 start 2\ngo c1 59\ngo c2 43\ngo c3 43\ngo c4 43\ngo h1 348\nend\n",
    "afr 1\nvolume replica\nfiles 1\nturns 100000\nclient 1\nwrite /f1 0 \"hello\"\nfault 2 5 lost\nend\n",
    "afr 1\nvolume replica\nfiles 1\nturns 100000\nclient 1\nwrite /f1 0 \"hello\"\nread /f1 3 10\nread /f1 9 4\nread /f1 0 0\nwrite /f1 0 \"\"\nend\n",
    "afr 1\nvolume replica\nfiles 1\nturns 10\nclient 1\nwrite /f1 0 \"hello\"\nread /f1 0 5\nend\n",
    "afr 1\nvolume arbiter\nfiles 1\nturns 100000\nclient 1\nwrite /f1 0 \"hello\"\nhealer 1\nround 0\nat 0 stop 1\nat 20 start 1\ngo c1 19\nend\n",
    "afr 1\nvolume replica\nfiles 1\nturns 100000\nclient 1\nwrite /f1 0 \"hello\"\nread /f1 0 5\nend\n",
    "afr 1\nvolume replica\nfiles 1\nturns 100000\nclient 1\nwrite /f1 0 \"hello\"\nhealer 1\nround 0\nfault 1 5 fail\nfault 2 5 fail\ngo c1 21\nend\n",
    "afr 1\nvolume replica\nfiles 1\nturns 100000\nclient 1\nunlink /f1\nclient 2\nstat /f1\nat 0 stop 2\nat 17 start 2\ngo c1 16\nend\n",
    "afr 1\nvolume replica\nfiles 2\nturns 100000\nclient 1\nwrite /f1 0 \"a\"\nwrite /f2 0 \"b\"\nhealer 1\nround 0\nhealer 2\nhealer 3\nat 0 stop 2\nat 39 start 2\ngo c1 38\nend\n",
    "afr 1\nvolume replica\nfiles 1\nturns 100000\nclient 1\nwrite /f1 0 \"aaaaa\"\nwrite /f1 0 \"bbbbb\"\nhealer 1\nround 0\nat 0 stop 2\nat 20 start 2\nat 20 cut h1 1\nat 54 stop 0\nat 54 start 0\nat 54 cut c1 2\ngo c1 19\ngo h1 32\ngo c1 19\nend\n",
    "afr 1\nvolume replica\nfiles 1\nturns 100000\nclient 1\nwrite /f1 0 \"1\"\nwrite /f1 0 \"2\"\nwrite /f1 0 \"3\"\nread /f1 0 1\nfault 1 8 fail\nfault 2 6 fail\nat 0 stop 1\nat 20 start 1\nat 20 stop 2\nat 41 start 2\nat 41 stop 0\nat 62 start 0\nend\n",
    "afr 1\nvolume replica\nfiles 1\nturns 88\nclient 1\nwrite /f1 0 \"hello\"\nread /f1 0 5\nend\n",
    "afr 1\nvolume replica\nfiles 1\nturns 100000\nclient 1\nwrite /f1 0 \"hello\"\nhealer 1\nround 0\nhealer 2\nround 0\nround 1\nround 2\nfault 2 5 lost\ngo c1 22\ngo h1 1000\ngo h2 1000\nend\n",
    "afr 1\nvolume replica\nfiles 1\nturns 100000\nclient 1\nwrite /f1 0 \"hello\"\nend\n",
    "afr 1\nvolume replica\nfiles 1\nturns 100000\nclient 1\nwrite /f1 0 \"hello\"\nat 0 stop 2\nend\n",
    "afr 1\nvolume replica\nfiles 1\nturns 100000\nclient 1\nwrite /f1 0 \"hello\"\nclient 2\nread /f1 0 5\nread /f1 0 5\nat 15 kill c1\nat 25 stop 0\ngo c1 15\nend\n",
    "afr 1\nvolume replica\nfiles 1\nturns 100000\nclient 1\nwrite /f1 0 \"hello\"\nat 0 stop 1\nat 0 stop 2\nend\n",
    "afr 1\nvolume replica\nfiles 1\nturns 100000\nclient 1\nsetattr /f1 owner alice\ngetattr /f1 owner\ngetattr /f1 none\nat 0 stop 1\nend\n",
    "afr 1\nvolume replica\nfiles 0\nturns 100000\nend\n",
    "afr 1\nvolume replica\nfiles 1\nturns 100000\nclient 1\nwrite /f1 0 \"hello\"\nhealer 1\nround 0\nfault 2 5 lost\ngo c1 22\nend\n",
    "afr 1\nvolume replica\nfiles 1\nturns 32\nclient 1\nwrite /f1 0 \"hello\"\nread /f1 0 5\nend\n",
    "afr 1\nvolume arbiter\nfiles 2\nturns 4000000\nclient 1\nwrite / 0 \"\"\nwrite /f1 1048576 \"a b~\"\nwrite /d/x-1/y_2 7 hex:00ff\nwrite /f2 0 fill:65536:0a\ncut /f1 0\nread /d/x-1 9 65536\ncreate /d/f2\nmkdir /d\nunlink /x-1\nrmdir /y_2/d\nls /\nstat /d\nsetattr /d user.a b.1\nsetattr / b.1 user.a\ngetattr /f2 b.1\nrename /d/f2 /e/x-1\nclient 2\nhealer 1\nround 0\nround 2\nhealer 2\nfault 0 1 fail\nfault 2 4000000 lost\nat 0 stop 0\nat 0 start 0\nat 5 cut c2 1\nat 5 join h2 2\nat 4000000 kill c1\ngo c1 4000000\ngo h2 1\nend\n",
    "afr 2\nvolume replica 5\nfiles 1\nturns 100000\nclient 1\nwrite /f1 0 \"hello\"\nread /f1 0 5\nend\n",
    "afr 2\nvolume replica 5\nfiles 1\nturns 100000\nclient 1\nwrite /f1 0 \"hello\"\nat 0 stop 3\nat 0 stop 4\nend\n",
    "afr 2\nvolume replica 5\nfiles 1\nturns 100000\nclient 1\nwrite /f1 0 \"hello\"\nat 0 stop 2\nat 0 stop 3\nat 0 stop 4\nend\n",
    "afr 2\nvolume replica 5\nfiles 0\nturns 1\nclient 1\nhealer 1\nround 4\nfault 4 4000000 lost\nat 0 cut c1 4\nend\n",
    "afr 1\nvolume replica\nfiles 1\nturns 9\nclient 1\nwrite /f1 0 fill:99:61\nwrite /f1 0 fill:65536:61\nwrite /f1 0 fill:10:61\nwrite /f1 0 fill:100:62\nwrite /f1 0 fill:101:62\nwrite /f1 0 fill:5000:61\nend\n",
];

/// Plans of three bricks in version 2, and how they are printed: in version 1.
const THREE: [(&str, &str); 2] = [
    (
        "afr 2\nvolume replica 3\nfiles 1\nturns 9\nclient 1\nread /f1 0 5\nhealer 1\nround 2\nfault 0 1 fail\nat 0 stop 2\ngo c1 1\nend\n",
        "afr 1\nvolume replica\nfiles 1\nturns 9\nclient 1\nread /f1 0 5\nhealer 1\nround 2\nfault 0 1 fail\nat 0 stop 2\ngo c1 1\nend\n",
    ),
    (
        "afr 2\nvolume arbiter 3\nfiles 0\nturns 1\nend\n",
        "afr 1\nvolume arbiter\nfiles 0\nturns 1\nend\n",
    ),
];

/// Data in hexadecimal digits, and the first of its shortest forms.
const FORMS: [(&str, &str); 11] = [
    ("", "\"\""),
    ("68656c6c6f", "\"hello\""),
    ("207e21", "\" ~!\""),
    ("61616161616161", "\"aaaaaaa\""),
    ("6161616161616161", "fill:8:61"),
    ("612262", "hex:612262"),
    ("00", "hex:00"),
    ("ff0a", "hex:ff0a"),
    ("0000", "hex:0000"),
    ("fafafa", "fill:3:fa"),
    ("7f7f7f7e", "hex:7f7f7f7e"),
];

/// Other spellings of data, and the first of its shortest forms.
const SHORTENED: [(&str, &str); 3] = [
    ("fill:2:7a", "\"zz\""),
    ("fill:0:ff", "\"\""),
    ("\"00000000\"", "fill:8:30"),
];

fn prints(alloc: Global, plan: &Plan, want: &str) -> bool {
    match print_plan(alloc, plan) {
        Ok(text) => text.as_str() == want,
        Err(_) => false,
    }
}

/// Whether one text is read, and the other printed of the plan.
fn is_printed(alloc: Global, text: &str, want: &str) -> bool {
    match read_plan(alloc, text.as_bytes()) {
        Ok(plan) => prints(alloc, &plan, want),
        Err(_) => false,
    }
}

/// Whether data in one form is printed in the other, and then stays as it is.
fn is_printed_as(alloc: Global, spelled: &str, want: &str) -> Result<bool, Fail> {
    let head = "afr 1\nvolume replica\nfiles 0\nturns 1\nclient 1\nwrite /a 0 ";
    let text = format!(in alloc; "{head}{spelled}\nend\n")?;
    let want = format!(in alloc; "{head}{want}\nend\n")?;
    let (text, want) = (text.as_str(), want.as_str());
    Ok(is_printed(alloc, text, want) && is_printed(alloc, want, want))
}

#[test]
fn each_plan_is_printed_as_it_was_read(rt: HostRuntime) -> Result<(), Fail> {
    for text in PLANS {
        assert!(rt; is_printed(rt.alloc(), text, text), "{text}");
    }
    Ok(())
}

#[test]
fn three_bricks_are_printed_in_version_1(rt: HostRuntime) -> Result<(), Fail> {
    for (text, want) in THREE {
        assert!(rt; is_printed(rt.alloc(), text, want), "{text}");
    }
    Ok(())
}

#[test]
fn data_is_printed_in_the_first_of_its_shortest_forms(rt: HostRuntime) -> Result<(), Fail> {
    for (digits, want) in FORMS {
        let spelled = format!(in rt.alloc(); "hex:{digits}")?;
        assert!(rt;
            is_printed_as(rt.alloc(), spelled.as_str(), want)?,
            "{want}"
        );
    }
    for (spelled, want) in SHORTENED {
        assert!(rt; is_printed_as(rt.alloc(), spelled, want)?, "{want}");
    }
    Ok(())
}
