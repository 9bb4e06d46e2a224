//! A counter below 50,000, as a machine.

ghost use Rattle.std.specs.Prelude.{◌≡◌, ◌+◌, Ok, Err, if◌then◌else◌, nat_lt};

use machines::{Machine, Trouble};
use std::alloc::AllocError;

// A counter below 50,000.
#[derive(Drop)]
pub struct Counter {
    pub count: u64,
}

// The counter would pass 49,999.
#[derive(Debug, Drop)]
pub struct TooLarge;

impl Machine for Counter {
    type Event = u16;

    type Reply = u64;

    type Fault = TooLarge;

    ghost step = { λ counter more. if nat_lt (counter.count + more) 50000
        then Ok (record { count = counter.count + more }, counter.count + more)
        else Err record {} };

    fn apply(&mut self, event: &u16) -> Result<u64, Trouble<TooLarge>> {
        let more = u64::from(*event);
        if self.count < 50_000 && self.count + more < 50_000 {
            self.count += more;
            Ok(self.count)
        } else {
            Err(Trouble::Refused(TooLarge))
        }
    }

    fn copy(&self) -> Result<Self, AllocError> {
        Ok(Counter { count: self.count })
    }

    fn copy_event(event: &u16) -> Result<u16, AllocError> {
        Ok(*event)
    }
}
