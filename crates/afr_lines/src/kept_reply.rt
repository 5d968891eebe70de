//! A reply that waits for its End line.
ghost use Rattle.std.specs.Prelude.{◌≡◌, IfOk};

use crate::reply::Reply;
use afr_base::NoMemory;
use afr_object::{TryCopy, View, Views};
use std::alloc::Global;
use std::marker::Model;

/// A reply from the answer that decides it on to its End line. The views of a split-brain stand in it as they are, so that
/// hearing an answer takes no memory. Contracts see the reply.
#[derive(Drop)]
pub struct KeptReply {
    /// The reply, where it isn't a split-brain.
    reply: Reply,
    views: Option<[Option<View>; 5]>,
}

impl Model for KeptReply {
    ghost use Rattle.afr_lines.specs.Kept.{kept};
    ghost use Rattle.afr_lines.specs.declared.reply.Reply.{Reply};

    ghost Value = { Reply };

    ghost view = { λ k. kept k.reply k.views };
}

impl KeptReply {
    pub fn new(reply: Reply) -> KeptReply
        ensures { result ≡ reply }
    {
        KeptReply { reply, views: None }
    }

    /// Each copy is accused, as these views show.
    pub fn split(views: &[Option<View>; 5]) -> KeptReply
        ensures { result ≡ Reply.SplitBrain views.now }
    {
        KeptReply {
            reply: Reply::Failed,
            views: Some(*views),
        }
    }

    /// A copy for an End line, which takes memory for what is read and for views.
    pub fn to_reply(&self, alloc: Global) -> Result<Reply, NoMemory>
        ensures ok { IfOk result (λ reply. reply ≡ self.now) }
    {
        match &self.views {
            Some(views) => Ok(Reply::SplitBrain(Views::new(alloc, views)?)),
            None => self.reply.copy(),
        }
    }
}
