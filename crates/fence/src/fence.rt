//! The check that a store makes.

ghost use Rattle.std.specs.Prelude.{◌≡◌};
ghost use Rattle.fence.specs.Requests.{Request};
ghost use Rattle.fence.specs.Shelves.{Shelf, lowest, accepts, offer};

use crate::token::Token;
use std::marker::Model;

/// What a store keeps for one key: the greatest token with which it accepted a write.
///
/// A store must not lose it: a new fence accepts every token. Contracts see that token.
#[derive(Clone, Copy, Debug, PartialEq, Eq)]
pub struct Fence {
    greatest: Token,
}

impl Model for Fence {
    ghost use Rattle.fence.specs.declared.token.Token.{Token};

    ghost Value = { Token };

    ghost view = { λ f. f.greatest };

    ghost inverse = { λ t. record { greatest = t } };
}

impl Fence {
    /// Creates the fence of a key before its first write. It accepts every token.
    pub fn new() -> Self
        ensures { result ≡ lowest }
    {
        Fence {
            greatest: Token::new(0, 0, 0),
        }
    }

    /// Creates the fence of a key with the greatest token that a store kept.
    pub fn with_greatest(greatest: Token) -> Self
        ensures { result ≡ greatest }
    {
        Fence { greatest }
    }

    /// Returns the greatest token with which a write was accepted, 0 in all parts before the first.
    pub fn greatest(self) -> Token
        ensures { result ≡ self }
    {
        self.greatest
    }

    /// Offers a write with this token, and returns whether it is accepted: the token is not below the
    /// greatest one.
    ///
    /// The token of an accepted write is the greatest from then on. A refused write changes nothing.
    /// A new owner offers its token before it reads, since a late write of an earlier owner may still
    /// be accepted until then.
    pub fn accept(&mut self, token: Token) -> bool
        ensures answer { result ≡ accepts self.old token }
        ensures kept { (shelf : Shelf) (write : Request) → shelf.greatest ≡ self.old → write.token ≡ token
            → self.new ≡ (offer write shelf).greatest }
    {
        if self.greatest <= token {
            self.greatest = token;
            true
        } else {
            false
        }
    }
}
