ghost use Rattle.std.specs.Prelude.{◌≡◌, true, false, Ok, OnOk, OnErr};
ghost use Rattle.bank.specs.Ports.{asked};

use table::refusal::{Layer, Reason, Refusal};

// A question: answered no it is the bank's refusal, which names no place.
pub(crate) fn ask(test: bool, reason: Reason) -> Result<(), Refusal>
    ensures answer { result ≡ asked test reason (Ok tt) }
    ensures yes { OnOk result (test ≡ true) }
    ensures no { OnErr result (test ≡ false) }
{
    if test {
        Ok(())
    } else {
        Err(Refusal::new(Layer::Bank, reason, 0))
    }
}
