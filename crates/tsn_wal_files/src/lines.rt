//! The text of a new journal, before it is a file.
use crate::journal::{JournalFault, stamp_of_now};
use std::alloc::Global;
use std::time;
use tsn_bridge::command::{Ask, Command};
use tsn_initial::bridge_of;
use tsn_keeping::Stamp;
use tsn_recorded::Chain;
use tsn_resuming::first_command;
use tsn_spelling::spell;

/// The text of a new journal. All its lines have one stamp.
#[derive(Drop)]
pub struct NewText {
    alloc: Global,
    bytes: Vec<u8>,
    chain: Chain,
    stamp: Stamp,
}

impl NewText {
    /// The first line alone, with the setup that the bridge begins with. Refused is what the setup is refused.
    pub fn begin<R: time::Clock>(
        rt: &R,
        alloc: Global,
        setup: &[u8],
    ) -> Result<NewText, JournalFault> {
        bridge_of(alloc, setup)?;
        let command = first_command(alloc, setup)?;
        let mut text = NewText {
            alloc,
            bytes: Vec::new(alloc),
            chain: Chain::new(),
            stamp: stamp_of_now(rt, alloc),
        };
        text.put(&command)?;
        Ok(text)
    }

    /// The text.
    pub fn as_bytes(&self) -> &[u8] {
        self.bytes.as_slice()
    }

    // Puts the line of a command behind the others.
    fn put(&mut self, command: &[u8]) -> Result<(), JournalFault> {
        Ok(
            self.chain
                .append(&mut self.bytes, self.stamp.bytes(), command)?,
        )
    }

    /// Puts the line of an ask behind the others.
    pub fn record(&mut self, ask: &Ask) -> Result<(), JournalFault> {
        let mut command = Vec::new(self.alloc);
        spell(ask, &mut command)?;
        self.put(&command)
    }
}
