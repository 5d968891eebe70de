//! Gfids in 8 bytes.
ghost use Rattle.std.specs.Prelude.{◌≡◌, IfSome};
ghost use Rattle.afr_log.specs.Entries.{gfid_in};

use afr_base::{Gfid, OPENING_GFIDS};

/// The first short form of an opening file, whose gfid lies past all those of 64 bits.
const FIRST_OPENING: u128 = 0x8000_0000_0000_0000;

/// A gfid in short: as it is below 2^63; from there on those from 2^64 on.
#[derive(Clone, Copy, Debug)]
pub(crate) struct Id(u64);

impl Id {
    pub fn gfid(self) -> Gfid
        ensures { result ≡ gfid_in self }
    {
        let number = u128::from(self.0);
        if number < FIRST_OPENING {
            Gfid(number)
        } else {
            Gfid(number + FIRST_OPENING)
        }
    }
}

/// The short form of a gfid, if it has one, as each has that a plan or a log can name.
pub(crate) fn id_of(gfid: Gfid) -> Option<Id>
    ensures { IfSome result (λ id. gfid_in id ≡ gfid) }
{
    let number = gfid.0;
    if number < FIRST_OPENING {
        Some(Id(number as u64))
    } else if OPENING_GFIDS <= number && number < OPENING_GFIDS + FIRST_OPENING {
        Some(Id((number - FIRST_OPENING) as u64))
    } else {
        None
    }
}
