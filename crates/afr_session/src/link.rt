//! The link of one actor to a brick, and the session over it.
ghost use Rattle.std.specs.Prelude.{◌≡◌, ◌<◌, ◌-◌, ◌^◌, true};
ghost use Rattle.afr_session.specs.Links.{cut_off, ended, fresh_link, joined, live_epoch, met, opens};

/// Sessions over a link are numbered from 1, so the last epoch is how many were opened.
#[derive(Clone, Copy, Debug, PartialEq, Eq)]
pub struct Link {
    pub up: bool,
    pub live: bool,
    pub opened: u32,
}

impl Link {
    pub fn new() -> Link
        ensures { result ≡ fresh_link }
    {
        Link {
            up: true,
            live: false,
            opened: 0,
        }
    }

    /// The epoch of the live session.
    pub fn epoch(&self) -> Option<u32>
        ensures { result ≡ live_epoch self.now }
    {
        if self.live { Some(self.opened) } else { None }
    }

    /// Opens a session, where none is live and the actor reaches the brick.
    pub fn meet(&mut self, started: bool)
        requires { opens started self.old ≡ true → self.old.opened < 2 ^ 32 - 1 }
        ensures { self.new ≡ met started self.old }
    {
        if started && self.up && !self.live {
            self.live = true;
            self.opened += 1;
        }
    }

    pub fn end(&mut self)
        ensures { self.new ≡ ended self.old }
    {
        self.live = false;
    }

    pub fn cut(&mut self)
        ensures { self.new ≡ cut_off self.old }
    {
        self.up = false;
        self.live = false;
    }

    pub fn join(&mut self)
        ensures { self.new ≡ joined self.old }
    {
        self.up = true;
    }
}
