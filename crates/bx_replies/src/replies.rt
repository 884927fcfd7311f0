//! The replies that are kept.

ghost use Rattle.std.specs.Prelude.{◌≡◌, ◌≤◌, [], length, IfOk, OnOk, OnErr, Some};
ghost use Rattle.std.specs.Option.{option_copied};
ghost use Rattle.bx_replies.specs.Answers.{Answer, IsApart, reply_of, with_answer};

use crate::call::Call;
use bx_base::{OutOfMemory, Raw};
use lru::LruCache;
use std::alloc::Global;
use std::marker::Model;
use std::num::NonZeroUsize;

/// How many answers are kept.
const MOST: usize = 256;

/// The answers that are kept, at most 256. Contracts see them as a list in the order of keeping, the oldest first.
#[derive(Drop)]
pub struct Replies {
    cache: LruCache<Call, Raw>,
}

impl Model for Replies {
    ghost use Rattle.std.specs.Prelude.{◌≡◌, List};
    ghost use Rattle.bx_replies.specs.Answers.{Answer};

    ghost Value = { List Answer };

    ghost use Rattle.bx_replies.specs.Calls.{kept};

    ghost view = { λ replies. kept replies.cache.entries };

    ghost invariant = { λ replies. replies.cache.cap ≡ 256 };
}

impl Replies {
    /// No answers yet. It takes the room for the most that are kept at once.
    pub fn new(alloc: Global) -> Result<Replies, OutOfMemory>
        ensures { IfOk result (λ replies. replies ≡ []) }
    {
        let most = NonZeroUsize::new(MOST).unwrap();
        let cache = LruCache::new(alloc, most)?;
        Ok(Replies { cache })
    }

    /// How many answers are kept, at most 256. No two of them are to the same call of the same client.
    pub fn len(&self) -> usize
        ensures len { result ≡ length self.now }
        ensures most { result ≤ 256 }
        ensures apart { IsApart self.now }
    {
        self.cache.len()
    }

    /// The reply that is kept for this client and exactly these bytes of a call, or `None` where there is none.
    /// Looking changes nothing: an answer that is found stays as old as it was.
    pub fn find(&self, client: u32, bytes: &[u8]) -> Option<&Raw>
        ensures { option_copied result ≡ reply_of self.now client bytes.now }
    {
        for (call, reply) in self.cache.iter().rev() {
            if client == call.client && bytes == call.bytes.bytes() {
                return Some(reply);
            }
        }
        None
    }

    /// Keeps an answer as the newest. One that is kept for the same client and call goes, and where there would be
    /// more than 256, the oldest goes. Where memory runs out, nothing changes.
    pub fn keep(&mut self, client: u32, call: Raw, reply: Raw) -> Result<(), OutOfMemory>
        ensures ok { OnOk result (self.new ≡ with_answer self.old record { client = client; call = call; reply = reply }) }
        ensures found { OnOk result (reply_of self.new client call ≡ Some reply) }
        ensures err { OnErr result (self.new ≡ self.old) }
    {
        // Only the proof reads this: a cache has no more entries than it may have, and no two with one key.
        let count = self.cache.len();
        prove!(count <= MOST);
        let call = Call {
            client,
            bytes: call,
        };
        self.cache.put(call, reply)?;
        Ok(())
    }

    /// Forgets all answers. It takes no memory.
    pub fn clear(&mut self)
        ensures { self.new ≡ [] }
    {
        self.cache.clear();
    }
}
