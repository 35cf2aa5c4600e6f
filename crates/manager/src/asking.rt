// Calls that hold no path, by name.
ghost use Rattle.std.specs.Prelude.{◌≡◌};
ghost use Rattle.manager.specs.Calls.{asked, start, release, shut, reopen, pick};

use crate::call::Call;

impl<'a> Call<'a> {
    pub fn start() -> Call<'a>
        ensures { asked result ≡ start }
    {
        Call::Start
    }

    pub fn release(number: u32) -> Call<'a>
        ensures { asked result ≡ release number }
    {
        Call::Release(number)
    }

    pub fn shut(port: usize) -> Call<'a>
        ensures { asked result ≡ shut port }
    {
        Call::Shut(port)
    }

    pub fn reopen(port: usize) -> Call<'a>
        ensures { asked result ≡ reopen port }
    {
        Call::Reopen(port)
    }

    pub fn pick(port: usize) -> Call<'a>
        ensures { asked result ≡ pick port }
    {
        Call::Pick(port)
    }
}
