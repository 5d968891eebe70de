//! All sessions of one brick: each actor has at most one live session with it.
ghost use Rattle.std.specs.Prelude.{◌≡◌, ℕ, ◌<◌, ◌-◌, ◌^◌, ◌==◌, ◌↔◌, IsTrue, None, true, false, map};
ghost use Rattle.afr_session.specs.Calls.{Does, EpochsRise};
ghost use Rattle.afr_session.specs.Calls.Call.{Meet, End, Cut, Join, Stop, Start};
ghost use Rattle.afr_session.specs.Links.{IsLive, ended, epoch_met, fresh_link, is_reached, link_of, live_epoch, opens};

use crate::link::Link;
use afr_base::ActorId;
use std::marker::Model;

/// Whether a brick is started, and its links to the actors, whose numbers are below 20. Each call
/// takes constant time and no memory.
#[derive(Drop)]
pub struct Sessions {
    started: bool,
    links: [Link; 20],
}

impl Model for Sessions {
    ghost use Rattle.afr_session.specs.Links.{Links, IsSound};

    ghost Value = { Links };

    ghost view = { λ s. record { started = s.started; each = s.links } };

    ghost invariant = { λ s. IsSound s.started s.links };
}

impl Sessions {
    /// The brick is started, all links are up, and no session was opened yet.
    pub fn new() -> Sessions
        ensures started { result.started ≡ true }
        ensures links { (a : ℕ) → a < 20 → link_of a result ≡ fresh_link }
    {
        Sessions {
            started: true,
            links: [Link::new(); 20],
        }
    }

    /// The epoch of the actor's live session, which is opened where there is none. There is no
    /// answer where the brick is stopped or the link is down.
    pub fn meet(&mut self, a: ActorId) -> Option<u32>
        requires actor { a.0 < 20 }
        requires room { opens self.old.started (link_of a.0 self.old) ≡ true → (link_of a.0 self.old).opened < 2 ^ 32 - 1 }
        ensures epoch { result ≡ epoch_met self.old.started (link_of a.0 self.old) }
        ensures live { result ≡ live_epoch (link_of a.0 self.new) }
        ensures does { Does (Meet a.0) self.old self.new }
        ensures same { opens self.old.started (link_of a.0 self.old) ≡ false → self.new ≡ self.old }
    {
        let link = &mut self.links[a.0 as usize];
        link.meet(self.started);
        link.epoch()
    }

    /// What `meet` would answer.
    pub fn peek(&self, a: ActorId) -> Option<u32>
        requires actor { a.0 < 20 }
        requires room { opens self.now.started (link_of a.0 self.now) ≡ true → (link_of a.0 self.now).opened < 2 ^ 32 - 1 }
        ensures { result ≡ epoch_met self.now.started (link_of a.0 self.now) }
    {
        let link = &self.links[a.0 as usize];
        if !self.started || !link.up {
            return None;
        }
        if link.live {
            return Some(link.opened);
        }
        Some(link.opened + 1)
    }

    /// Whether the actor's session of this epoch is live. Only a started brick has live sessions,
    /// and only over links that are up.
    pub fn is_live(&self, a: ActorId, epoch: u32) -> bool
        requires { a.0 < 20 }
        ensures live { IsTrue result ↔ IsLive a.0 epoch self.now }
        ensures reached { result ≡ true → is_reached self.now.started (link_of a.0 self.now) ≡ true }
    {
        self.links[a.0 as usize].epoch() == Some(epoch)
    }

    /// Whether the brick is started.
    pub fn is_up(&self) -> bool
        ensures { result ≡ self.now.started }
    {
        self.started
    }

    /// The brick stops, and all sessions end.
    #[tactic(auto, using(crate::proofs::StopLemmas::stopped_sound, crate::proofs::StopLemmas::stopped_as_was))]
    pub fn stop(&mut self)
        ensures does { Does Stop self.old self.new }
        ensures same { self.old.started ≡ false → self.new ≡ self.old }
    {
        self.started = false;
        end_all(&mut self.links);
    }

    pub fn start(&mut self)
        ensures does { Does Start self.old self.new }
        ensures same { self.old.started ≡ true → self.new ≡ self.old }
    {
        self.started = true;
    }

    /// The actor's link goes down, and its session ends.
    pub fn cut(&mut self, a: ActorId)
        requires { a.0 < 20 }
        ensures does { Does (Cut a.0) self.old self.new }
        ensures same { (link_of a.0 self.old).up ≡ false → self.new ≡ self.old }
    {
        self.links[a.0 as usize].cut();
    }

    /// The actor's link comes up again, without a session.
    pub fn join(&mut self, a: ActorId)
        requires { a.0 < 20 }
        ensures does { Does (Join a.0) self.old self.new }
        ensures same { (link_of a.0 self.old).up ≡ true → self.new ≡ self.old }
    {
        self.links[a.0 as usize].join();
    }

    /// The actor's session ends, and its link stays.
    pub fn end(&mut self, a: ActorId)
        requires { a.0 < 20 }
        ensures does { Does (End a.0) self.old self.new }
        ensures same { (link_of a.0 self.old).live ≡ false → self.new ≡ self.old }
    {
        self.links[a.0 as usize].end();
    }
}

fn end_all(links: &mut [Link])
    ensures { links.new ≡ map ended links.old }
{
    for link in links.iter_mut() {
        link.end();
    }
}

/// A session that has ended is never live again.
pub fn epochs_rise()
    ensures { EpochsRise }
{}
