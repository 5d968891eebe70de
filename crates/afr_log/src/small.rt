//! Changelog numbers of one kind, where all are small.
ghost use Rattle.std.specs.Prelude.{◌≡◌, IfSome, length};
ghost use Rattle.afr_log.specs.Entries.{marks_in};

use afr_base::Marks;

/// Numbers of one kind in 12 bytes.
#[derive(Clone, Copy, Debug)]
pub(crate) struct SmallMarks {
    pub dirty: u16,
    pub pending: [u16; 5],
}

fn narrowed(number: u32) -> Option<u16>
    ensures { IfSome result (λ small. small ≡ number) }
{
    match u16::try_from(number) {
        Ok(small) => Some(small),
        Err(_) => None,
    }
}

fn five(numbers: &[u32; 5])
    ensures { length numbers.now ≡ 5 }
{}

fn five_small(numbers: &[u16; 5])
    ensures { length numbers.now ≡ 5 }
{}

/// These numbers, if all are small.
pub(crate) fn small_of(marks: &Marks) -> Option<SmallMarks>
    ensures { IfSome result (λ small. marks_in small ≡ marks.now) }
{
    let numbers = &marks.pending;
    five(numbers);
    let dirty = narrowed(marks.dirty)?;
    let to_0 = narrowed(numbers[0])?;
    let to_1 = narrowed(numbers[1])?;
    let to_2 = narrowed(numbers[2])?;
    let to_3 = narrowed(numbers[3])?;
    let to_4 = narrowed(numbers[4])?;
    Some(SmallMarks {
        dirty,
        pending: [to_0, to_1, to_2, to_3, to_4],
    })
}

impl SmallMarks {
    pub fn marks(&self) -> Marks
        ensures { result ≡ marks_in self.now }
    {
        let numbers = &self.pending;
        five_small(numbers);
        Marks {
            dirty: u32::from(self.dirty),
            pending: [
                u32::from(numbers[0]),
                u32::from(numbers[1]),
                u32::from(numbers[2]),
                u32::from(numbers[3]),
                u32::from(numbers[4]),
            ],
        }
    }
}
