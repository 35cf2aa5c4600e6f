// Shutting and reopening a port of the bank: two calls that differ in the bank's, and in two lines not worth a third function.
ghost use Rattle.std.specs.Prelude.{◌≡◌};
ghost use Rattle.fabric.specs.States.{meaning, outcome};
ghost use Rattle.fabric.specs.Shutting.{shut_call, reopen_call};

use crate::declined::Declined;
use crate::fabric::Fabric;
use bank::bank::Bank;

impl Fabric {
    // Shuts a port. Its sessions stay, and nothing is written there until it is reopened.
    pub fn shut<B: Bank>(&mut self, bank: &mut B, port: usize) -> Result<(), Declined>
        ensures meets { outcome result (meaning self.new) (B.ports bank.new) ≡ shut_call (meaning self.old) (B.ports bank.old) port }
    {
        bank.shut(port)?;
        Ok(())
    }

    // Reopens a port.
    pub fn reopen<B: Bank>(&mut self, bank: &mut B, port: usize) -> Result<(), Declined>
        ensures meets { outcome result (meaning self.new) (B.ports bank.new) ≡ reopen_call (meaning self.old) (B.ports bank.old) port }
    {
        bank.reopen(port)?;
        Ok(())
    }
}
