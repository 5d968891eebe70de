//! A request, and what it is given.

use afr_lines::{Answer, Request};
use afr_server::Served;

/// A request, and what it is given. Both are large: whoever has them made once hands them from line to line.
#[derive(Drop)]
pub struct Exchange {
    pub request: Request,
    pub given: Served,
}

impl Exchange {
    pub fn new() -> Exchange {
        Exchange {
            request: Request::Index,
            given: Served {
                answer: Answer::Done,
                took: false,
            },
        }
    }
}
