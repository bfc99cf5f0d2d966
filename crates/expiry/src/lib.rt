// Whether an entry that was touched at a time is live still.
#![tactic(auto)]

ghost use Rattle.std.specs.Prelude.{◌≡◌, ◌-◌};
ghost use Rattle.expiry.specs.Expiry.{live_by};

pub fn is_live(used: bool, touched: u64, lifetime: u64, time: u64) -> bool
    ensures { result ≡ live_by used touched lifetime time }
{
    used & (time.saturating_sub(touched) < lifetime)
}
