//! The keeper of a journal.
ghost use Rattle.std.specs.Prelude.{◌≡◌, [], true, false, IfOk, OnOk, OnErr};
ghost use Rattle.tsn_device.specs.Kept.{BeginsWith};
ghost use Rattle.tsn_recorded.specs.Text.{Recorded, IsRecordedAfter};
ghost use Rattle.tsn_keeping.specs.Keeping.{with_entered, with_settled};

use crate::buffered::BufferedDevice;
use std::alloc::{AllocError, Global};
use std::marker::Model;
use tsn_device::{Device, Failed};
use tsn_recorded::Chain;

/// What enters the lines of recorded commands into a journal, and settles them. A contract sees the bytes that its
/// device keeps, those entered behind them, the last digest, and whether no call has failed.
#[derive(Drop)]
pub struct Keeper<D: Device> {
    behind: BufferedDevice<D>,
    chain: Chain,
}

impl<D: Device> Model for Keeper<D> {
    ghost use Rattle.std.specs.Prelude.{◌++◌};
    ghost use Rattle.tsn_keeping.specs.Keeping.{Keeping};

    ghost Value = { Keeping };

    ghost view = { λ k. record {
      kept = k.behind.kept;
      unsettled = k.behind.loose ++ k.behind.waiting;
      last = k.chain;
      works = k.behind.works;
    } };
}

impl<D: Device> Keeper<D> {
    /// A keeper over this device, which goes on behind this chain. It takes the memory of its buffer, 64 KiB, and no
    /// more later.
    pub fn new(alloc: Global, device: D, chain: Chain) -> Result<Keeper<D>, AllocError>
        requires { (D.loose device ≡ []) × (D.works device ≡ true) }
        ensures { IfOk result (λ k. k ≡ record { kept = D.kept device; unsettled = []; last = chain; works = true }) }
    {
        Ok(Keeper {
            behind: BufferedDevice::new(alloc, device)?,
            chain,
        })
    }

    /// The device behind.
    pub fn device(&self) -> &D
        ensures kept { D.kept result.now ≡ self.now.kept }

        // What it was given and does not keep is a front of what is not settled.
        ensures loose { BeginsWith self.now.unsettled (D.loose result.now) }
    {
        self.behind.device()
    }

    /// Whether no call has failed, so that another may be made.
    pub fn works(&self) -> bool
        ensures { result ≡ self.now.works }
    {
        self.behind.works()
    }

    /// Enters the line of a command with this stamp behind all others. Where it fails, what is kept stays kept, and no
    /// further call may be made.
    pub fn enter(&mut self, stamp: &[u8], command: &[u8]) -> Result<(), Failed>
        requires works { self.old.works ≡ true }
        requires recorded { let r : Recorded = record { stamp = stamp.now; command = command.now } in
            IsRecordedAfter self.old.last r }
        ensures ok { let r : Recorded = record { stamp = stamp.now; command = command.now } in
            OnOk result (self.new ≡ with_entered r self.old) }
        ensures kept { self.new.kept ≡ self.old.kept }
        ensures failed { OnErr result (self.new.works ≡ false) }
    {
        self.chain.move_on(stamp, command);
        self.behind.push(self.chain.last())?;
        self.behind.push(b" ")?;
        self.behind.push(stamp)?;
        self.behind.push(b" ")?;
        self.behind.push(command)?;
        self.behind.push(b"\n")
    }

    /// Has the device keep all that was entered; where it keeps that already, it is not asked. Where it fails, what is
    /// kept stays kept, and no further call may be made.
    pub fn settle(&mut self) -> Result<(), Failed>
        requires { self.old.works ≡ true }
        ensures ok { OnOk result (self.new ≡ with_settled self.old) }
        ensures kept { OnErr result (self.new.kept ≡ self.old.kept) }
        ensures failed { OnErr result (self.new.works ≡ false) }
    {
        self.behind.settle()
    }
}
