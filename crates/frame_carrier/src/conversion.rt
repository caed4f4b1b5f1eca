// What a conversion is asked for. A module of its own, since a struct with a ghost field imports every `ghost use` of its file.
ghost use Rattle.std.specs.Prelude.{◌≤◌};

use frame::{Format, Refusal, mode_numbered};

// The two formats, and the request that frames have towards IF1.
#[derive(Clone, Copy)]
pub struct Conversion {
    pub from: Format,
    pub to: Format,
    pub request: u8,
    pub ghost mode: { request ≤ 8 },
}

impl Conversion {
    ghost use Rattle.std.specs.Prelude.{◌≡◌};
    ghost use Rattle.frame_carrier.specs.Asked.{asked, asked_of};

    // By their numbers, of which one that is out of range is refused.
    pub fn new(from: u64, to: u64, request: u64) -> Result<Conversion, Refusal>
        ensures { asked_of result ≡ asked from to request }
    {
        let from = Format::try_from(from)?;
        let to = Format::try_from(to)?;
        let request = mode_numbered(request)?;
        Ok(Conversion { from, to, request })
    }
}
