// A timing as text: the three times and the link's number, UP/DOWN/WAIT/LINK.
ghost use Rattle.std.specs.Prelude.{Some};
ghost use Rattle.values.specs.Texts.{timing_text};

use super::Timing;
use std::fmt;

impl fmt::Display for Timing {
    ghost output = { λ v. Some (timing_text v) };

    fn fmt<W: fmt::Write>(&self, f: &mut fmt::Formatter<W>) -> fmt::Result {
        let Timing {
            up,
            down,
            wait,
            link,
        } = *self;
        let link = u8::from(link);
        write!(f, "{up}/{down}/{wait}/{link}")
    }
}
