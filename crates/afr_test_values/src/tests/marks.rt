//! The names, values and texts of changelog attributes.
use afr_base::{AllMarks, BrickId, Marks};
use afr_marks::{Which, attr_name, numbers_of, value_bytes, value_text};
use std::test::Fail;

#[test]
fn each_attribute_has_its_name(rt: HostRuntime) -> Result<(), Fail> {
    let table = [
        (Which::Dirty, "trusted.afr.dirty"),
        (Which::Client(BrickId(0)), "trusted.afr.vol-client-0"),
        (Which::Client(BrickId(4)), "trusted.afr.vol-client-4"),
    ];
    for (which, expected) in table {
        let name = attr_name(rt.alloc(), which).ok().ok_or("memory")?;
        assert_eq!(rt; name.as_str(), expected);
    }
    Ok(())
}

#[test]
fn a_value_is_written_in_lower_case_digits(rt: HostRuntime) -> Result<(), Fail> {
    let value = [0, 0, 0, 1, 0, 0, 0, 0xab, 0xff, 0x10, 9, 0xa0];
    let text = value_text(rt.alloc(), &value).ok().ok_or("memory")?;
    assert_eq!(rt; text.as_str(), "0x00000001000000abff1009a0");
    Ok(())
}

#[test]
fn a_value_is_its_three_numbers(rt: HostRuntime) {
    let marks = AllMarks {
        bytes: Marks {
            dirty: 1,
            pending: [0; 5],
        },
        attrs: Marks {
            dirty: 0,
            pending: [0, 0, 0x0102_0304, 0, 0],
        },
        names: Marks {
            dirty: 0,
            pending: [9, 0, 3, 0, 0],
        },
    };
    let table = [
        (
            Which::Dirty,
            [0, 0, 0, 1, 0, 0, 0, 0, 0, 0, 0, 0],
            [1, 0, 0],
        ),
        (
            Which::Client(BrickId(2)),
            [0, 0, 0, 0, 1, 2, 3, 4, 0, 0, 0, 3],
            [0, 0x0102_0304, 3],
        ),
        (Which::Client(BrickId(5)), [0; 12], [0, 0, 0]),
    ];
    for (which, bytes, numbers) in table {
        assert_eq!(rt; value_bytes(&marks, which), bytes);
        assert_eq!(rt; numbers_of(&bytes), numbers);
    }
}
