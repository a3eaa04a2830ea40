// Which running statuses there are: every reader and writer asks this first, and refuses an invalid one by 1.
ghost use Rattle.std.specs.Prelude.{◌≡◌};
ghost use Rattle.smf.specs.Running.{is_running};

use crate::Running;

impl Running {
    // Whether it is valid: none, which is 0, or a channel status, 80..EF.
    #[tactic(auto, unfolding(smf::specs::Running::is_running))]
    pub fn is_valid(self) -> bool
        ensures { result ≡ is_running self.status }
    {
        let status = self.status;
        status == 0 || (0x80 <= status && status < 0xF0)
    }
}
