// A guard over lent memory that writes zeros when it is let go, on every way out.
#![tactic(auto)]

ghost use Rattle.guard.specs.Zero.{AllZero};

pub fn wipe(bytes: &mut [u8])
    ensures { AllZero bytes.new }
{
    bytes.fill(0);
}

// While it lives the memory is used through `bytes`.
pub struct Wiped<'a> {
    pub bytes: &'a mut [u8],
}

impl Drop for Wiped<'_> {
    fn drop(self)
        ensures { AllZero self.exit.0.now }
    {
        wipe(self.bytes);
        let Wiped { bytes: _ } = self;
    }
}
