//! What can go wrong with one request.

/// `Fail`: the brick refuses the request, which isn't carried out. `Lost`: it is carried out, its
/// answer doesn't come, and the session ends.
#[derive(Clone, Copy, Debug, PartialEq, Eq)]
pub enum Fault {
    Fail,
    Lost,
}
