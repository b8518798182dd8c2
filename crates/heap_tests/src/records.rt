//! The records of the tests.
ghost use Rattle.std.specs.Prelude.{◌≤◌};

use orders::block::BlockRecord;
use orders::page::PageRecord;

pub fn page(number: u16, writes: u64) -> PageRecord {
    PageRecord { number, writes }
}

// Of 4 pages, and of age 1.
pub fn block(number: u16, erases: u32, live: u8) -> BlockRecord
    requires { live ≤ 4 }
{
    BlockRecord {
        number,
        erases,
        live,
        pages: 4,
        age: 1,
    }
}
