//! Pins: the grants by which a rank lets another one change its fragments for one request.
ghost use Rattle.std.specs.Prelude.{◌≡◌, ◌≢◌, [], false, IfOk, OnOk, OnErr};
ghost use Rattle.std.specs.List.{list_any};
ghost use Rattle.inboxes.specs.Pins.{is_for, is_grant_in, is_on, is_same_grant, left_without, with_grant};

use mds_types::{Frag, Ino};
use std::alloc::{AllocError, Global};
use std::marker::Model;

/// A fragment of a directory that the request of this client and transaction number may change, though another rank
/// serves it.
#[derive(Clone, Copy, Debug, PartialEq, Eq)]
pub struct Pin {
    pub dir: Ino,
    pub frag: Frag,
    pub client: u64,
    pub tid: u64,
}

/// The pins that stand, each once.
#[derive(Debug, Drop)]
pub struct Pins {
    pins: Vec<Pin>,
}

impl Model for Pins {
    ghost use Rattle.std.specs.Prelude.{List};
    ghost use Rattle.inboxes.specs.declared.pins.Pin.{Pin as Granted};

    ghost Value = { List Granted };

    ghost view = { λ p. p.pins.items };
}

impl Pins {
    /// No pins. Takes no memory.
    pub fn new(alloc: Global) -> Pins
        ensures { result ≡ [] }
    {
        Pins {
            pins: Vec::new(alloc),
        }
    }

    /// A copy. Takes memory for the pins: none where there are none, so that this copy can't fail.
    pub fn try_clone(&self) -> Result<Pins, AllocError>
        ensures ok { IfOk result (λ copy. copy ≡ self.now) }
        ensures err { OnErr result (self.now ≢ []) }
    {
        if self.pins.is_empty() {
            return Ok(Pins::new(*self.pins.allocator()));
        }
        Ok(Pins {
            pins: self.pins.clone()?,
        })
    }

    /// Sets a pin; one that stands stays as it is, and takes no memory.
    pub fn pin(&mut self, pin: Pin) -> Result<(), AllocError>
        ensures ok { OnOk result (self.new ≡ with_grant self.old pin) }
        ensures err { OnErr result ((list_any (is_same_grant pin) self.old ≡ false) × (self.new ≡ self.old)) }
    {
        if self.is_granted(&pin) {
            return Ok(());
        }
        match self.pins.push(pin) {
            Ok(()) => Ok(()),
            Err(_) => Err(AllocError),
        }
    }

    /// All pins, in the order in which they were set.
    pub fn as_slice(&self) -> &[Pin]
        ensures { result.now ≡ self.now }
    {
        &self.pins
    }

    /// Whether a fragment is pinned, for whatever request.
    pub fn is_pinned(&self, dir: Ino, frag: Frag) -> bool
        ensures { result ≡ list_any (is_on dir frag) self.now }
    {
        self.pins
            .iter()
            .any(|pin| pin.dir == dir && pin.frag == frag)
    }

    /// Whether this very pin stands.
    pub fn is_granted(&self, pin: &Pin) -> bool
        ensures { result ≡ list_any (is_same_grant pin.now) self.now }
    {
        self.pins.contains(pin)
    }

    /// Ends the pins for a request.
    pub fn end_pair(&mut self, client: u64, tid: u64)
        ensures { self.new ≡ left_without (is_for client tid) self.old }
    {
        self.pins
            .retain(|pin| !(pin.client == client && pin.tid == tid));
    }

    /// Ends the pins on a fragment, as one that is removed.
    pub fn forget(&mut self, dir: Ino, frag: Frag)
        ensures { self.new ≡ left_without (is_on dir frag) self.old }
    {
        self.pins
            .retain(|pin| !(pin.dir == dir && pin.frag == frag));
    }

    /// Ends the pins on all fragments of a directory, as one that is removed.
    pub fn forget_directory(&mut self, dir: Ino)
        ensures { self.new ≡ left_without (is_grant_in dir) self.old }
    {
        self.pins.retain(|pin| !(pin.dir == dir));
    }
}
