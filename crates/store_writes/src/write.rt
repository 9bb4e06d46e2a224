//! What logs say of writes to a store.

ghost use Rattle.std.specs.Prelude.{◌≡◌};
ghost use Rattle.store_writes.specs.Writes.{token_needed};

use fence::Token;

/// What a task was given with a request that it served: the generation of its token for a key, and
/// its life.
#[derive(Clone, Copy, Debug, PartialEq, Eq, Hash)]
pub struct GivenToken {
    /// The slice key of the key.
    pub key: u64,
    /// The generation of the token.
    pub generation: u64,
    /// The life of the task.
    pub life: u32,
}

/// A write that was offered to a store.
#[derive(Clone, Copy, Debug, PartialEq, Eq)]
pub struct Write {
    /// The slice key of its key.
    pub key: u64,
    /// Its token.
    pub token: Token,
    /// The store's number for it, if the store took it. Of two writes of a key, the one that the
    /// store took later has the greater number.
    pub revision: Option<u64>,
}

/// What the logs of services have of tokens and writes, in the order of the tickets.
#[derive(Clone, Copy, Debug, PartialEq, Eq)]
pub enum WriteEvent {
    /// A task served a request.
    Given(GivenToken),
    /// A write was offered.
    Offered(Write),
}

impl Write {
    /// Returns what its task must have been given before.
    pub fn token_needed(&self) -> GivenToken
        ensures { result ≡ token_needed self.now }
    {
        GivenToken {
            key: self.key,
            generation: self.token.generation,
            life: self.token.life,
        }
    }
}
