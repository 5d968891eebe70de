//! The epochs of an actor's sessions, one a brick.
ghost use Rattle.std.specs.Prelude.{◌≡◌, ℕ, None, length};
ghost use Rattle.afr_servers.specs.Found.{epoch_at};

/// The epoch of each brick's session, as an actor found it at the first line of its work; there is
/// none where it didn't reach the brick.
#[derive(Clone, Copy)]
pub struct Epochs {
    pub of: [Option<u32>; 5],
}

impl Epochs {
    pub fn none() -> Epochs
        ensures none { (b : ℕ) → epoch_at b result ≡ None }
        ensures five { length result.of ≡ 5 }
    {
        Epochs { of: [None; 5] }
    }
}
