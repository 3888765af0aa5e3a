//! A device behind a buffer: it is given bytes only when the buffer is full, or when all is to be kept.
ghost use Rattle.std.specs.Prelude.{◌≡◌, ◌+◌, ◌≤◌, ◌<◌, ◌++◌, [], vec_len, vec_capacity, length, true, false, IfOk, OnOk, OnErr};

use std::alloc::{AllocError, Global};
use std::marker::Model;
use tsn_device::{Device, Failed};
use tsn_recorded::append;

// The most bytes that wait in the buffer.
const CAPACITY: usize = 65536;

/// A device, and the bytes that wait to be given to it. Behind a call that failed none may be made.
#[derive(Drop)]
pub(crate) struct BufferedDevice<D: Device> {
    device: D,
    buffer: Vec<u8>,
    // Whether the device was given bytes that no sync has settled.
    has_loose: bool,
    works: bool,
}

impl<D: Device> Model for BufferedDevice<D> {
    ghost use Rattle.std.specs.Prelude.{vec_len, vec_capacity};
    ghost use Rattle.tsn_keeping.specs.Buffered.{Held, IsSound};

    ghost Value = { Held };

    ghost view = { λ b. record { kept = D.kept b.device; loose = D.loose b.device; waiting = b.buffer.items; works = b.works } };

    ghost invariant = { λ b. IsSound (D.loose b.device) (D.works b.device) (vec_len b.buffer) (vec_capacity b.buffer)
        b.has_loose b.works };
}

impl<D: Device> BufferedDevice<D> {
    pub(crate) fn new(alloc: Global, device: D) -> Result<BufferedDevice<D>, AllocError>
        requires { (D.loose device ≡ []) × (D.works device ≡ true) }
        ensures { IfOk result (λ b. b ≡ record { kept = D.kept device; loose = []; waiting = []; works = true }) }
    {
        let buffer = Vec::with_capacity(alloc, CAPACITY)?;
        Ok(BufferedDevice {
            device,
            buffer,
            has_loose: false,
            works: true,
        })
    }

    pub(crate) fn device(&self) -> &D
        ensures kept { D.kept result.now ≡ self.now.kept }
        ensures loose { D.loose result.now ≡ self.now.loose }
    {
        &self.device
    }

    pub(crate) fn works(&self) -> bool
        ensures { result ≡ self.now.works }
    {
        self.works
    }

    // Gives the device these bytes, 1 or more, while none wait.
    fn give(&mut self, bytes: &[u8]) -> Result<(), Failed>
        requires works { self.old.works ≡ true }
        requires some { 0 < length bytes.now }
        requires none { self.old.waiting ≡ [] }
        ensures ok { OnOk result (self.new ≡ record self.old { loose = self.old.loose ++ bytes.now }) }
        ensures kept { self.new.kept ≡ self.old.kept }
        ensures failed { OnErr result (self.new.works ≡ false) }
    {
        self.has_loose = true;
        let given = self.device.append(bytes);
        self.works = given.is_ok();
        given
    }

    // Gives the device all that waits.
    fn hand_on(&mut self) -> Result<(), Failed>
        requires works { self.old.works ≡ true }
        ensures ok { OnOk result (self.new ≡ record self.old { loose = self.old.loose ++ self.old.waiting; waiting = [] }) }
        ensures kept { self.new.kept ≡ self.old.kept }
        ensures failed { OnErr result (self.new.works ≡ false) }
    {
        if self.buffer.is_empty() {
            return Ok(());
        }
        self.has_loose = true;
        let given = self.device.append(&self.buffer);
        self.buffer.clear();
        self.works = given.is_ok();
        given
    }

    /// Puts these bytes behind all others. It takes no memory.
    pub(crate) fn push(&mut self, bytes: &[u8]) -> Result<(), Failed>
        requires works { self.old.works ≡ true }
        ensures ok { OnOk result (self.new.loose ++ self.new.waiting ≡ (self.old.loose ++ self.old.waiting) ++ bytes.now) }
        ensures worked { OnOk result (self.new.works ≡ true) }
        ensures kept { self.new.kept ≡ self.old.kept }
        ensures failed { OnErr result (self.new.works ≡ false) }
    {
        if bytes.len() > CAPACITY - self.buffer.len() {
            self.hand_on()?;
        }
        if bytes.len() > CAPACITY {
            return self.give(bytes);
        }
        append(&mut self.buffer, bytes);
        Ok(())
    }

    /// Has the device keep all. Where all is kept already, it is not asked.
    pub(crate) fn settle(&mut self) -> Result<(), Failed>
        requires works { self.old.works ≡ true }
        ensures ok { OnOk result (self.new ≡ record {
          kept = self.old.kept ++ (self.old.loose ++ self.old.waiting);
          loose = [];
          waiting = [];
          works = true;
        }) }
        ensures kept { OnErr result (self.new.kept ≡ self.old.kept) }
        ensures failed { OnErr result (self.new.works ≡ false) }
    {
        self.hand_on()?;
        if !self.has_loose {
            return Ok(());
        }
        let synced = self.device.sync();
        self.has_loose = synced.is_err();
        self.works = synced.is_ok();
        synced
    }
}
